// A line of `standings`, put into a room.
ghost use Rattle.std.specs.Prelude.{true, ◌≡◌, ◌+◌, ◌*◌, ◌≤◌, length};
ghost use Rattle.rows.specs.Facts.{InRange};
ghost use Rattle.book.specs.Asked.{no_figures};
ghost use Rattle.table.specs.Words.{turned_back};
ghost use Rattle.text.specs.Numbers.{and_spaces};
ghost use Rattle.text.specs.Words.{and_space};
ghost use Rattle.text.specs.Inner.{Puts};
ghost use Rattle.report.specs.Reports.{accounts as Reports·accounts, mode_word, five_of, standing_line, line_at, lines_of};
ghost use Rattle.report.specs.Inner.{figures_by};

use crate::all_needs;
use crate::listing::{Sheet, put_front, put_rows};
use book::Figures;
use rows::Row;
use rows::needs::{blocked_of, collateral_of, only_if, zeros};
use table::Table;
use text::{put_each, put_number, put_text};

// Puts the five figures: they take 105 bytes at most.
fn put_five(room: &mut [u8], at: usize, f: Figures) -> usize
    requires { at + 105 ≤ length room.old }
    ensures puts { Puts room.old at (and_spaces (five_of f)) room.new result }
    ensures upper_bound { result ≤ at + 105 }
{
    let list = [f.collateral, f.need, f.blocked, f.deemed, f.free];
    put_each(room, at, &list, 5)
}

fn put_mode(room: &mut [u8], at: usize, mode: bool) -> usize
    requires { at + 4 ≤ length room.old }
    ensures puts { Puts room.old at (and_space (mode_word mode)) room.new result }
    ensures upper_bound { result ≤ at + 4 }
{
    if mode {
        put_text(room, at, b"on ")
    } else {
        put_text(room, at, b"off ")
    }
}

// Puts one account's line: it takes 157 bytes at most.
pub(crate) fn put_standing(
    room: &mut [u8],
    at: usize,
    number: u16,
    r: Row,
    tm: u16,
    f: Figures,
) -> usize
    requires { at + 157 ≤ length room.old }
    ensures puts { Puts room.old at (standing_line number r tm f) room.new result }
    ensures upper_bound { result ≤ at + 157 }
{
    let p1 = put_front(room, at, number, r, tm);
    let p2 = put_five(room, p1, f);
    let p3 = put_mode(room, p2, f.mode);
    put_number(room, p3, f.shortfall, b'\n')
}

// The figures of a row's account, where its need and its mode are given, or that it has none: 1 where the book isn't sound, 7 where the row is retired.
#[tactic(auto, unfolding(sums::specs::Choice::pick))]
pub(crate) fn figures_of(sound: bool, r: Row, need: u64, mode: bool, top: bool) -> Figures
    requires { sound ≡ true → InRange r }
    ensures { result ≡ figures_by sound r need mode top }
{
    if !sound {
        return no_figures(1);
    }
    if !r.live {
        return no_figures(7);
    }
    let c = collateral_of(r);
    let k = blocked_of(need, c);
    Figures {
        refusal: 0,
        collateral: c,
        need,
        blocked: k,
        deemed: need - k,
        free: c - k,
        mode,
        shortfall: only_if(top, need - k),
    }
}

fn no_figures(refusal: u8) -> Figures
    ensures { result ≡ no_figures refusal }
{
    Figures {
        refusal,
        collateral: 0,
        need: 0,
        blocked: 0,
        deemed: 0,
        free: 0,
        mode: false,
        shortfall: 0,
    }
}

// Puts the lines of all rows, n of them, and gives how long they are.
pub(crate) fn put_standings(room: &mut [u8], t: Table, n: usize) -> usize
    requires { (n ≡ Reports·accounts t.count) × (219 * n + 60 ≤ length room.old) }
    ensures { Puts room.old 0 (lines_of (line_at (turned_back t)) n) room.new result }
{
    match all_needs(t, n) {
        Some(needs) => put_rows(room, 0, t, Sheet::Standings, true, &needs[..n]),
        None => put_rows(room, 0, t, Sheet::Standings, false, &zeros()[..n]),
    }
}
