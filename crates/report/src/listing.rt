// The lines of all rows, put into a room: what `standings` and `holdings` share.
ghost use Rattle.std.specs.Prelude.{◌+◌, ◌*◌, ◌≤◌, length, get_or, ◌≡◌};
ghost use Rattle.table.specs.Words.{turned_back};
ghost use Rattle.text.specs.Words.{and_space};
ghost use Rattle.text.specs.Inner.{Puts};
ghost use Rattle.report.specs.Reports.{state_word, line_front, lines_of};
ghost use Rattle.report.specs.Inner.{Shown, line_by, line_of, Beside};

use crate::holding::put_holding;
use crate::number_at;
use crate::standing::{figures_of, put_standing};
use rows::Row;
use table::Table;
use table::places::row_at;
use text::{put_short, put_sort, put_text};

// Which line a row has.
#[derive(Clone, Copy)]
pub(crate) enum Sheet {
    Standings,
    Holdings,
}

// One shape with put_mode: one function would be handed both words and both definitions, and be longer.
fn put_state(room: &mut [u8], at: usize, live: bool) -> usize
    requires { at + 8 ≤ length room.old }
    ensures puts { Puts room.old at (and_space (state_word live)) room.new result }
    ensures upper_bound { result ≤ at + 8 }
{
    if live {
        put_text(room, at, b"live ")
    } else {
        put_text(room, at, b"retired ")
    }
}

// Puts what every row's line begins with: it takes 27 bytes at most.
pub(crate) fn put_front(room: &mut [u8], at: usize, number: u16, r: Row, tm: u16) -> usize
    requires { at + 27 ≤ length room.old }
    ensures puts { Puts room.old at (line_front number r tm) room.new result }
    ensures upper_bound { result ≤ at + 27 }
{
    let p1 = put_short(room, at, number, b' ');
    let p2 = put_sort(room, p1, r.sort as u16);
    let p3 = put_state(room, p2, r.live);
    put_short(room, p3, tm, b' ')
}

// The number of a client's TM, by the TM word of its row: any word, so that a book that isn't sound has a line too. By value: an array that is lent does not show its length.
fn tm_number(numbers: [u16; 256], tm: u16) -> u16
    ensures { result ≡ get_or numbers tm 0 }
{
    if tm < 256 { numbers[tm as usize] } else { 0 }
}

// Puts one row's line, by what the list has beside it: it takes 219 bytes at most.
fn put_row(
    room: &mut [u8],
    at: usize,
    sheet: Sheet,
    number: u16,
    r: Row,
    tm: u16,
    sound: bool,
    x: u64,
    mode: bool,
    top: bool,
) -> usize
    requires { Shown sheet sound r x × (at + 279 ≤ length room.old) }
    ensures puts { Puts room.old at (line_by sheet number r tm sound x mode top) room.new result }
    ensures upper_bound { result ≤ at + 219 }
{
    match sheet {
        Sheet::Standings => {
            let figures = figures_of(sound, r, x, mode, top);
            put_standing(room, at, number, r, tm, figures)
        }
        Sheet::Holdings => put_holding(room, at, number, r, tm, 10 * r.margin + x),
    }
}

// Puts the lines of the rows that a list has a number beside, from a place on, and gives the place after them. The book was tested before.
pub(crate) fn put_rows(
    room: &mut [u8],
    start: usize,
    t: Table,
    sheet: Sheet,
    sound: bool,
    list: &[u64],
) -> usize
    requires { Beside sheet (turned_back t) sound list.now × (length list.now ≤ 256)
        × (start + 219 * length list.now + 60 ≤ length room.old) }
    ensures { Puts room.old start (lines_of (line_of sheet (turned_back t)) (length list.now)) room.new result }
{
    let mut at = start;
    for (i, x) in list.iter().enumerate() {
        let number = number_at(&t.numbers, i);
        let r = row_at(&t.marks, &t.amounts, i);
        let tm = tm_number(t.numbers, r.tm);
        at = put_row(
            room,
            at,
            sheet,
            number,
            r,
            tm,
            sound,
            *x,
            t.modes[i],
            i == 0,
        );
    }
    at
}
