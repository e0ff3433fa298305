// Up to which amount a record passes: the largest with which it is carried out, at a table that is known to be sound.
#![tactic(auto)]

ghost use Rattle.std.specs.Prelude.{◌≡◌, ◌<◌};
ghost use Rattle.rows.specs.Facts.{InRange};
ghost use Rattle.table.specs.Words.{row_in};
ghost use Rattle.passing.specs.Most.{least_of, has_amount, names_one};
ghost use Rattle.passing.specs.Inner.{free_in, short_in, limits_by, Within, Lent, IsMost};

pub use dayfile::Record;
use limits::{Limits, free_of, largest_by, limits_of, raised_to};
use lookup::place_among;
use rows::needs::collateral_of;
use table::Marks;
use table::places::row_at;

mod limits;

// The refusal number or 0, and the largest amount.
// No Result: `most_of` and docs/API.md say both fields, with a refusal too.
#[derive(Clone, Copy)]
pub struct Largest {
    pub refusal: u8,
    pub amount: u64,
}

pub fn refused(n: u8) -> Largest
    ensures { result ≡ record { refusal = n; amount = 0 } }
{
    Largest {
        refusal: n,
        amount: 0,
    }
}

fn least_of(code: u8) -> u64
    ensures { result ≡ least_of code }
{
    if 10 <= code { 0 } else { 1 }
}

fn has_amount(code: u8) -> bool
    ensures { result ≡ has_amount code }
{
    ((4 <= code) & (code <= 10)) | (code == 12) | (code == 13)
}

// The second mark byte names one amount, and it suits the code.
fn names_one(code: u8, named: u8) -> bool
    ensures { result ≡ names_one code named }
{
    let suits = ((1 <= code) & (code <= 3) & (named == 0))
        | ((4 <= code) & (code <= 7) & (1 <= named) & (named <= 15))
        | ((8 <= code) & (code <= 9) & (named == 16))
        | ((code == 10) & (named == 32))
        | ((code == 11) & (named == 0))
        | ((code == 12) & (named == 16))
        | ((code == 13) & (named == 32));
    suits & (u8::count_ones(named) == 1)
}

// What is free of the account at place i, by the need kept there (K3).
fn free_at(marks: &Marks, w: &[u64; 2560], needs: &[u64; 256], i: usize) -> u64
    requires { (i < 256) × InRange (row_in marks.now w.now i) }
    ensures { result ≡ free_in marks.now w.now needs.now i }
{
    let row = row_at(marks, w, i);
    free_of(row, needs[i])
}

// There is a shortfall (K8).
fn is_short(marks: &Marks, w: &[u64; 2560], needs: &[u64; 256]) -> bool
    requires { InRange (row_in marks.now w.now 0) }
    ensures { result ≡ short_in marks.now w.now needs.now }
{
    let row = row_at(marks, w, 0);
    collateral_of(row) < needs[0]
}

// Up to where an amount passes, of the account at place i.
fn limits_at(
    marks: &Marks,
    w: &[u64; 2560],
    modes: &[bool; 256],
    needs: &[u64; 256],
    i: usize,
    code: u8,
    named: u8,
) -> Limits
    requires { Within marks.now w.now i }
    ensures { result ≡ limits_by marks.now w.now modes.now needs.now i code named }
{
    let row = row_at(marks, w, i);
    let p = row.tm as usize;
    let own = free_at(marks, w, needs, i);
    let its = free_at(marks, w, needs, p);
    let top = free_at(marks, w, needs, 0);
    let short = is_short(marks, w, needs);
    let raised = raised_to(row.sort, row.margin, short, own, its, top);
    limits_of(code, named, row, modes[i], own, raised)
}

// The largest amount with which the record would have been carried out at a sound table, whose arrays are lent, whatever the record's serial and its amounts are.
pub fn most_in(
    marks: &Marks,
    w: &[u64; 2560],
    modes: &[bool; 256],
    needs: &[u64; 256],
    numbers: &[u16; 256],
    count: u16,
    record: Record,
) -> Largest
    requires { Lent count marks.now w.now modes.now needs.now numbers.now }
    ensures { IsMost count marks.now w.now modes.now needs.now numbers.now «record» result }
{
    let code = record.code;
    if !has_amount(code) {
        return refused(4);
    }
    let named = record.named;
    if !names_one(code, named) {
        return refused(5);
    }
    let place = place_among(numbers, count, record.account);
    if place >= count {
        return refused(7);
    }
    let i = place as usize;
    if !marks.live[i] {
        return refused(7);
    }
    let l = limits_at(marks, w, modes, needs, i, code, named);
    largest_by(l, least_of(code))
}
