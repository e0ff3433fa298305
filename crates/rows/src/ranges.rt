// Whether a row's amounts are zero, and whether kinds are within others.
ghost use Rattle.std.specs.Prelude.{◌≡◌};
ghost use Rattle.rows.specs.Ranges.{kinds_zero, kinds_within, kinds_capped, no_amounts};

use super::{CEILING, Kinds, Row};

pub fn kinds_zero(k: Kinds) -> bool
    ensures { result ≡ kinds_zero k }
{
    (k.cash == 0) & (k.deposits == 0) & (k.guarantees == 0) & (k.securities == 0)
}

pub fn no_amounts(r: Row) -> bool
    ensures { result ≡ no_amounts r }
{
    kinds_zero(r.received) & kinds_zero(r.allocated) & (r.pledged == 0) & (r.margin == 0)
}

pub fn kinds_within(a: Kinds, b: Kinds) -> bool
    ensures { result ≡ kinds_within a b }
{
    (a.cash <= b.cash)
        & (a.deposits <= b.deposits)
        & (a.guarantees <= b.guarantees)
        & (a.securities <= b.securities)
}

pub fn kinds_capped(k: Kinds) -> bool
    ensures { result ≡ kinds_capped k }
{
    (k.cash <= CEILING)
        & (k.deposits <= CEILING)
        & (k.guarantees <= CEILING)
        & (k.securities <= CEILING)
}
