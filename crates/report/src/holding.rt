// The text of `holdings`, put into a room.
ghost use Rattle.std.specs.Prelude.{true, [], ◌∷◌, ◌++◌, ◌≡◌, ◌+◌, ◌≤◌, length, take};
ghost use Rattle.sums.specs.Listed.{list_to};
ghost use Rattle.rows.specs.Facts.{InRange};
ghost use Rattle.table.specs.Words.{amount_of, turned_back};
ghost use Rattle.book.specs.Sound.{sound_b};
ghost use Rattle.text.specs.Numbers.{newline, and_spaces};
ghost use Rattle.text.specs.Inner.{Puts};
ghost use Rattle.report.specs.Holdings.{percent_of, percent_text, holding_line, book_line, columns, holdings_text};
ghost use Rattle.report.specs.Inner.{InExcess};

use crate::listing::{Sheet, put_front, put_rows};
use rows::Row;
use rows::needs::{collateral_of, zeros};
use table::Table;
use table::needs::deemed_under;
use text::{put_each, put_number, put_text};

// A use in tenths of a percent of the collateral, or that there is no collateral for it.
#[derive(Clone, Copy)]
pub(crate) enum Percent {
    Tenths(u64),
    Without,
}

#[tactic(auto, unfolding(crate::specs::Holdings::percent_of, sums::specs::Choice::pick))]
fn percent_of(used: u64, collateral: u64) -> Percent
    requires { used ≤ 100_000_000_000_000_000 }
    ensures { result ≡ percent_of used collateral }
{
    if used == 0 {
        return Percent::Tenths(0);
    }
    if collateral == 0 {
        return Percent::Without;
    }
    Percent::Tenths(100 * used / collateral)
}

// Puts it as the last of a line: it takes 42 bytes at most.
fn put_percent(room: &mut [u8], at: usize, p: Percent) -> usize
    requires { at + 42 ≤ length room.old }
    ensures puts { Puts room.old at (percent_text p ++ (newline ∷ [])) room.new result }
    ensures upper_bound { result ≤ at + 42 }
{
    match p {
        Percent::Tenths(n) => {
            let q = put_number(room, at, n / 10, b'.');
            put_number(room, q, n % 10, b'\n')
        }
        Percent::Without => put_text(room, at, b"none\n"),
    }
}

// Puts a row's ten amounts: none passes the ceiling, so that they take 150 bytes at most.
fn put_amounts(room: &mut [u8], at: usize, r: Row) -> usize
    requires { InRange r × (at + 210 ≤ length room.old) }
    ensures puts { Puts room.old at (and_spaces (list_to (amount_of r) 10)) room.new result }
    ensures upper_bound { result ≤ at + 150 }
{
    let list = [
        r.received.cash,
        r.received.deposits,
        r.received.guarantees,
        r.received.securities,
        r.allocated.cash,
        r.allocated.deposits,
        r.allocated.guarantees,
        r.allocated.securities,
        r.pledged,
        r.margin,
    ];
    put_each(room, at, &list, 10)
}

// Puts one row's line: it takes 219 bytes at most.
pub(crate) fn put_holding(
    room: &mut [u8],
    at: usize,
    number: u16,
    r: Row,
    tm: u16,
    used: u64,
) -> usize
    requires { InRange r × (used ≤ 100_000_000_000_000_000) × (at + 279 ≤ length room.old) }
    ensures puts { Puts room.old at (holding_line number r tm used) room.new result }
    ensures upper_bound { result ≤ at + 219 }
{
    let p1 = put_front(room, at, number, r, tm);
    let p2 = put_amounts(room, p1, r);
    put_percent(room, p2, percent_of(used, collateral_of(r)))
}

// Puts the next serial, the next number and the names of the columns: they take 260 bytes at most.
fn put_head(room: &mut [u8], serial: u16, next: u32) -> usize
    requires { 260 ≤ length room.old }
    ensures puts { Puts room.old 0 (book_line serial next ++ columns) room.new result }
    ensures upper_bound { result ≤ 260 }
{
    let p1 = put_text(room, 0, b"serial ");
    let p2 = put_number(room, p1, serial as u64, b' ');
    let p3 = put_text(room, p2, b"number ");
    let p4 = put_number(room, p3, next as u64, b'\n');
    put_text(
        room,
        p4,
        b"account sort state tm received.cash received.deposits received.guarantees received.securities allocated.cash allocated.deposits allocated.guarantees allocated.securities pledged margin use\n",
    )
}

// What is in excess under each account of a sound book (K2).
fn excess_under(t: Table) -> [u64; 256]
    requires { sound_b (turned_back t) ≡ true }
    ensures { InExcess (turned_back t) true (take t.count result) × (length result ≡ 256) }
{
    let mut excess = zeros();
    deemed_under(&t.marks, &t.amounts, t.count, true, &mut excess);
    excess
}

// Puts the whole text, and gives how long it is; none where the book is not sound.
pub(crate) fn put_holdings(room: &mut [u8], t: Table) -> usize
    requires { 65536 ≤ length room.old }
    ensures { Puts room.old 0 (holdings_text (turned_back t)) room.new result }
{
    if !book::is_sound(t) {
        return 0;
    }
    let excess = excess_under(t);
    let at = put_head(room, t.serial, t.next);
    let n = t.count as usize;
    put_rows(room, at, t, Sheet::Holdings, true, &excess[..n])
}
