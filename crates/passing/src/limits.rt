// Up to where each code's amount passes, in closed form.
ghost use Rattle.std.specs.Prelude.{◌≡◌, ◌-◌, ◌≤◌, ◌<◌};
ghost use Rattle.rows.specs.Rows.{ceiling, collateral, account_of};
ghost use Rattle.rows.specs.Facts.{InRange};
ghost use Rattle.rows.specs.View.{free_of};
ghost use Rattle.rows.specs.DeemedUnder.{need_by};
ghost use Rattle.passing.specs.Inner.{kind_named, takeable, raised_to, up_to, limits_of, largest_by};

use crate::{Largest, refused};
use rows::deemed::{less, need_by};
use rows::needs::{account_of, blocked_of, counted_of, only_if};
use rows::{CEILING, Kinds, Row, Rule};

// An amount above `within` meets the number; any meets 17 where the account is held by its mode; one above `spare` meets 12.
#[derive(Clone, Copy)]
pub struct Limits {
    pub number: u8,
    pub within: u64,
    pub held: bool,
    pub spare: u64,
}

// One bound alone.
fn up_to(number: u8, within: u64) -> Limits
    ensures { result ≡ up_to number within }
{
    Limits {
        number,
        within,
        held: false,
        spare: CEILING,
    }
}

// The kind that a second mark byte names alone.
fn kind_named(named: u8, k: Kinds) -> u64
    ensures { result ≡ kind_named named k }
{
    if named == 1 {
        return k.cash;
    }
    if named == 2 {
        return k.deposits;
    }
    if named == 4 {
        return k.guarantees;
    }
    k.securities
}

// What is free of an account, by the need kept at its place (K3).
pub(crate) fn free_of(row: Row, kept: u64) -> u64
    requires { InRange row }
    ensures { result ≡ free_of (need_by (account_of row) kept) (collateral row) }
{
    let a = account_of(row);
    a.collateral - blocked_of(need_by(a, kept), a.collateral)
}

// What may be taken out of a kind where so much is free: of government securities (K7) until what is left counts for too little.
fn takeable_of(named: u8, row: Row, spare: u64) -> u64
    requires { InRange row }
    ensures { result ≡ takeable named row spare }
{
    if named != 8 {
        return spare;
    }
    let s = row.allocated.securities;
    let worth = less(counted_of(s, Rule::New), spare);
    less(s, (10 * worth + 8) / 9)
}

// A margin may rise by what is free of the account, of its TM and of the CM; where there is a shortfall (K8), not at all.
pub(crate) fn raised_to(sort: u8, margin: u64, short: bool, own: u64, its: u64, top: u64) -> u64
    requires { (margin ≤ ceiling) × (own ≤ 50_000_000_000_000) × (its ≤ 50_000_000_000_000) × (top ≤ 50_000_000_000_000) }
    ensures { result ≡ raised_to sort margin short own its top }
{
    if short {
        return margin;
    }
    margin + own + only_if(sort == 2, its) + only_if(!(sort == 0), top)
}

// What may be handed back or allocated.
fn left_of(named: u8, row: Row) -> Limits
    ensures { result ≡ up_to 11 (kind_named named row.received - kind_named named row.allocated) }
{
    let received = kind_named(named, row.received);
    up_to(11, less(received, kind_named(named, row.allocated)))
}

// By code.
pub(crate) fn limits_of(code: u8, named: u8, row: Row, on: bool, spare: u64, raised: u64) -> Limits
    requires { InRange row }
    ensures { result ≡ limits_of code named row on spare raised }
{
    match code {
        4 => up_to(10, less(CEILING, kind_named(named, row.received))),
        5 => left_of(named, row),
        6 => left_of(named, row),
        7 => Limits {
            number: 11,
            within: kind_named(named, row.allocated),
            held: on,
            spare: takeable_of(named, row, spare),
        },
        8 => up_to(10, less(CEILING, row.pledged)),
        9 => Limits {
            number: 11,
            within: row.pledged,
            held: on,
            spare,
        },
        10 => up_to(13, raised),
        _ => up_to(13, CEILING),
    }
}

// What they give, with the least amount that the code allows.
pub(crate) fn largest_by(l: Limits, least: u64) -> Largest
    requires { 0 < l.number }
    ensures { result ≡ largest_by l least }
{
    if l.within < least {
        return refused(l.number);
    }
    if l.held {
        return refused(17);
    }
    if l.spare < least {
        return refused(12);
    }
    let most = blocked_of(l.within, l.spare);
    Largest {
        refusal: 0,
        amount: blocked_of(most, CEILING),
    }
}
