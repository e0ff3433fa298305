// What one account is blocked and deemed, and what of it is due under its TM and under the CM.
ghost use Rattle.std.specs.Prelude.{◌≡◌, true, ◌≤◌, replicate};
ghost use Rattle.sums.specs.Sum.{only};
ghost use Rattle.rows.specs.View.{blocked_of, deemed_of};
ghost use Rattle.rows.specs.Rows.{ceiling, counted, collateral, account_of};
ghost use Rattle.rows.specs.Facts.{InRange};
ghost use Rattle.rows.specs.DeemedUnder.{client_due, member_due};
ghost use Rattle.rows.specs.Inner.{Slot, account_as};

use super::{Account, Row, Rule};

pub fn blocked_of(need: u64, collateral: u64) -> u64
    ensures { result ≡ blocked_of need collateral }
{
    need.min(collateral)
}

fn deemed(need: u64, collateral: u64) -> u64
    ensures { result ≡ deemed_of need collateral }
{
    need.saturating_sub(collateral)
}

pub fn only_if(t: bool, a: u64) -> u64
    ensures { result ≡ only t a }
{
    if t { a } else { 0 }
}

// What government securities of face value s count for (K7).
pub fn counted_of(s: u64, rule: Rule) -> u64
    requires { s ≤ ceiling }
    ensures { result ≡ counted rule s }
{
    match rule {
        Rule::Old => s,
        Rule::New => s - (s + 9) / 10,
    }
}

pub fn collateral_of(r: Row) -> u64
    requires { InRange r }
    ensures { result ≡ collateral r }
{
    let a = r.allocated;
    a.cash + a.deposits + a.guarantees + r.pledged + counted_of(a.securities, Rule::New)
}

pub fn account_of(r: Row) -> Account
    requires { InRange r }
    ensures { result ≡ account_of r }
{
    Account {
        sort: r.sort,
        tm: r.tm,
        margin: r.margin,
        collateral: collateral_of(r),
    }
}

// Ten margins against nine collaterals (K2).
pub fn in_tenths(a: Account) -> Account
    requires { (a.margin ≤ 100_000_000_000_000) × (a.collateral ≤ 100_000_000_000_000) }
    ensures { result ≡ account_as true a }
{
    Account {
        sort: a.sort,
        tm: a.tm,
        margin: 10 * a.margin,
        collateral: 9 * a.collateral,
    }
}

pub fn client_due(a: Account) -> u64
    ensures { result ≡ client_due a }
{
    only_if((a.sort == 2) & (a.tm < 256), deemed(a.margin, a.collateral))
}

pub fn member_due(a: Account, d: u64) -> u64
    requires { (a.margin ≤ 100_000_000_000_000) × (d ≤ 30_000_000_000_000_000) }
    ensures { result ≡ member_due a d }
{
    only_if(a.sort == 1, deemed(a.margin + d, a.collateral))
        + only_if(a.sort == 3, deemed(a.margin, a.collateral))
}

// The place of a TM; any place serves where the table has no such row.
pub fn slot(tm: u16) -> usize
    ensures { Slot tm result }
{
    if tm < 256 { tm as usize } else { 0 }
}

pub fn zeros() -> [u64; 256]
    ensures { result ≡ replicate 256 0 }
{
    [0u64; 256]
}
