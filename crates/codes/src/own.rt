// One function for each code: it decides the code's own lines of the table, and puts the code's own words. The lines before 8 have passed.
// Refusals stay the documents' numbers, 0 for none: `sums.Table.first` gives them so.
ghost use Rattle.std.specs.Prelude.{◌≡◌, ◌≤◌, ◌<◌, eqb, get_or};
ghost use Rattle.rows.specs.Rows.{ceiling};
ghost use Rattle.rows.specs.Facts.{InRange, KindsWithin};
ghost use Rattle.rows.specs.Ranges.{ceilings};
ghost use Rattle.sums.specs.Choice.{pick};
ghost use Rattle.sums.specs.Table.{first};
ghost use Rattle.rules.specs.Refusals.{none_left};
ghost use Rattle.table.specs.Words.{row_in};
ghost use Rattle.table.specs.Facts.{Sized};
ghost use Rattle.codes.specs.Own.{leaves_below, taking_lines, has_live_client_in, deemed_under_in, need_passes_in, Held, Opens, numbers_with, Receives, HandsBack, Allocates, Releases, Pledges, Unpledges, SetsMargin, SetsPledged, RevisesMargin, Retires};

use crate::settling::{deemed_under_after_at, deemed_under_at, need_passes_with};
use rows::deemed::blocked_with;
use rows::needs::{account_of, collateral_of};
use rows::ranges::{kinds_capped, kinds_within, no_amounts};
use rows::words::{
    opened_row, with_allocated, with_live, with_margin, with_pledged, with_received,
};
use rows::{CEILING, Kinds, Row};
use rules::kinds::{less_kinds, plus_kinds};
use table::Marks;
use table::places::{put_kinds, put_row, row_at};

fn wanted(code: u8) -> u8
    ensures { result ≡ pick (eqb code 2) 1 0 }
{
    if code == 2 { 1 } else { 0 }
}

// No row is left, or no number (K11).
fn none_left(count: u16, next: u32) -> bool
    ensures { result ≡ none_left count next }
{
    (256 <= count) | (65536 <= next)
}

// 1, 2, 3
pub fn open(
    marks: &mut Marks,
    w: &mut [u64; 2560],
    numbers: &mut [u16; 256],
    count: u16,
    next: u32,
    code: u8,
    a: u16,
) -> u8
    requires { Sized marks.old w.old × (a < 256) }
    ensures { Opens marks.old w.old count next code a result marks.new w.new × (numbers.new ≡ numbers_with result count next numbers.old) }
{
    let its = marks.sort[a as usize];
    if its != wanted(code) {
        return 8;
    }
    if none_left(count, next) {
        return 9;
    }
    put_row(marks, w, count as usize, opened_row(code, a));
    numbers[count as usize] = next as u16;
    0
}

// 4
pub(crate) fn receive(marks: &Marks, w: &mut [u64; 2560], i: usize, k: Kinds) -> u8
    requires { Sized marks.now w.old × (i < 256) × InRange (row_in marks.now w.old i) × KindsWithin k ceilings }
    ensures { Receives marks.now w.old i k result w.new }
{
    let row = row_at(marks, w, i);
    let sum = plus_kinds(row.received, k);
    if !kinds_capped(sum) {
        return 10;
    }
    let new = with_received(row, sum);
    put_kinds(w, 0, i, new.received);
    0
}

// 5
pub(crate) fn hand_back(marks: &Marks, w: &mut [u64; 2560], i: usize, k: Kinds) -> u8
    requires { Sized marks.now w.old × (i < 256) }
    ensures { HandsBack marks.now w.old i k result w.new }
{
    let row = row_at(marks, w, i);
    let left = less_kinds(row.received, row.allocated);
    if !kinds_within(k, left) {
        return 11;
    }
    let new = with_received(row, less_kinds(row.received, k));
    put_kinds(w, 0, i, new.received);
    0
}

// 6
// One shape with hand_back, and no twin: other words are put by other setters (`HandsBack`, `Allocates`).
pub(crate) fn allocate(marks: &Marks, w: &mut [u64; 2560], i: usize, k: Kinds) -> u8
    requires { Sized marks.now w.old × (i < 256) × InRange (row_in marks.now w.old i) × KindsWithin k ceilings }
    ensures { Allocates marks.now w.old i k result w.new }
{
    let row = row_at(marks, w, i);
    let left = less_kinds(row.received, row.allocated);
    if !kinds_within(k, left) {
        return 11;
    }
    let new = with_allocated(row, plus_kinds(row.allocated, k));
    put_kinds(w, 4, i, new.allocated);
    0
}

// What release and unpledge ask where the row is put anew: K5's 17 before K7's 12, by the collateral that is left and what was blocked.
pub(crate) fn taking(
    w: &[u64; 2560],
    needs: &[u64; 256],
    on: bool,
    i: usize,
    row: Row,
    new: Row,
) -> u8
    requires { (i < 256) × InRange row × InRange new × (get_or (deemed_under_in w.now needs.now) i 0 ≤ 2_560_000_000_000_000) }
    ensures { result ≡ first (taking_lines on (leaves_below row new (get_or (deemed_under_in w.now needs.now) i 0))) }
{
    if on {
        return 17;
    }
    let held = blocked_with(account_of(row), deemed_under_at(w, needs, i));
    if collateral_of(new) < held { 12 } else { 0 }
}

// 7
pub(crate) fn release(
    marks: &Marks,
    w: &mut [u64; 2560],
    needs: &[u64; 256],
    on: bool,
    i: usize,
    k: Kinds,
) -> u8
    requires { Held marks.now w.old (deemed_under_in w.old needs.now) i × KindsWithin k ceilings }
    ensures { Releases marks.now w.old (deemed_under_in w.old needs.now) on i k result w.new }
{
    let row = row_at(marks, w, i);
    if !kinds_within(k, row.allocated) {
        return 11;
    }
    let new = with_allocated(row, less_kinds(row.allocated, k));
    let n = taking(w, needs, on, i, row, new);
    if n != 0 {
        return n;
    }
    put_kinds(w, 4, i, new.allocated);
    0
}

// 8
pub(crate) fn pledge(marks: &Marks, w: &mut [u64; 2560], i: usize, y: u64) -> u8
    requires { Sized marks.now w.old × (i < 256) × InRange (row_in marks.now w.old i) × (y ≤ ceiling) }
    ensures { Pledges marks.now w.old i y result w.new }
{
    let row = row_at(marks, w, i);
    let sum = row.pledged + y;
    if CEILING < sum {
        return 10;
    }
    let new = with_pledged(row, sum);
    w[256 * 8 + i] = new.pledged;
    0
}

// 9
pub(crate) fn unpledge(
    marks: &Marks,
    w: &mut [u64; 2560],
    needs: &[u64; 256],
    on: bool,
    i: usize,
    y: u64,
) -> u8
    requires { Held marks.now w.old (deemed_under_in w.old needs.now) i }
    ensures { Unpledges marks.now w.old (deemed_under_in w.old needs.now) on i y result w.new }
{
    let row = row_at(marks, w, i);
    if row.pledged < y {
        return 11;
    }
    let new = with_pledged(row, row.pledged - y);
    let n = taking(w, needs, on, i, row, new);
    if n != 0 {
        return n;
    }
    w[256 * 8 + i] = new.pledged;
    0
}

// The CM's need would pass its collateral after the margin y of the account at place i, whose row is given.
fn need_passes_after(
    marks: &Marks,
    w: &[u64; 2560],
    needs: &[u64; 256],
    i: usize,
    row: Row,
    y: u64,
) -> bool
    requires { Held marks.now w.now (deemed_under_in w.now needs.now) i × (y ≤ ceiling) × (row ≡ row_in marks.now w.now i) }
    ensures { result ≡ need_passes_in marks.now w.now (deemed_under_in w.now needs.now) i y }
{
    let top = account_of(row_at(marks, w, 0));
    let new = with_margin(row, y);
    let old = account_of(row);
    let after = deemed_under_after_at(marks, w, needs, i, old, account_of(new));
    need_passes_with(old, top, y, after.cm)
}

// 10; for 13 what the CM's need would be is worked out where the margin rises, and nowhere else (K6).
pub(crate) fn set_margin(
    marks: &Marks,
    w: &mut [u64; 2560],
    needs: &[u64; 256],
    i: usize,
    y: u64,
) -> u8
    requires { Held marks.now w.old (deemed_under_in w.old needs.now) i × (y ≤ ceiling) }
    ensures { SetsMargin marks.now w.old (deemed_under_in w.old needs.now) i y result w.new }
{
    let row = row_at(marks, w, i);
    if row.margin < y {
        if need_passes_after(marks, w, needs, i, row, y) {
            return 13;
        }
    }
    let new = with_margin(row, y);
    w[256 * 9 + i] = new.margin;
    0
}

// 12: a price moved, and nothing is asked of cover (K8).
pub(crate) fn set_pledged(marks: &Marks, w: &mut [u64; 2560], i: usize, y: u64) -> u8
    requires { Sized marks.now w.old × (i < 256) }
    ensures { SetsPledged marks.now w.old i y result w.new }
{
    let row = row_at(marks, w, i);
    let new = with_pledged(row, y);
    w[256 * 8 + i] = new.pledged;
    0
}

// 13: a margin was revised, likewise.
// One shape with set_pledged, and no twin: another word by another setter.
pub(crate) fn revise_margin(marks: &Marks, w: &mut [u64; 2560], i: usize, y: u64) -> u8
    requires { Sized marks.now w.old × (i < 256) }
    ensures { RevisesMargin marks.now w.old i y result w.new }
{
    let row = row_at(marks, w, i);
    let new = with_margin(row, y);
    w[256 * 9 + i] = new.margin;
    0
}

// A TM has a live client; only a TM's are looked for.
fn has_live_client(marks: &Marks, count: u16, a: u16) -> bool
    requires { (count ≤ 256) × (a < 256) }
    ensures { result ≡ has_live_client_in marks.now count a }
{
    let its = marks.sort[a as usize];
    if its != 1 {
        return false;
    }
    let n = count as usize;
    let mut some = false;
    for i in 0..n {
        some = some | ((marks.sort[i] == 2) & (marks.tm[i] == a) & marks.live[i]);
    }
    some
}

// 11
pub fn retire(marks: &mut Marks, w: &[u64; 2560], count: u16, a: u16) -> u8
    requires { Sized marks.old w.now × (a < 256) × (count ≤ 256) }
    ensures { Retires marks.old w.now count a result marks.new }
{
    if a == 0 {
        return 8;
    }
    let i = a as usize;
    let row = row_at(marks, w, i);
    if !no_amounts(row) {
        return 14;
    }
    if has_live_client(marks, count, a) {
        return 14;
    }
    let gone = with_live(row, false);
    marks.live[i] = gone.live;
    0
}
