// A row lent by `&mut` to thin setters, as document 01 orders: each puts one of its words anew.
ghost use Rattle.std.specs.Prelude.{◌≡◌};
ghost use Rattle.rows.specs.Rows.{with_live, with_received, with_allocated, with_pledged, with_margin};

use super::{Kinds, Row};

pub fn set_live(r: &mut Row, x: bool)
    ensures { r.new ≡ with_live r.old x }
{
    r.live = x;
}

pub fn set_received(r: &mut Row, x: Kinds)
    ensures { r.new ≡ with_received r.old x }
{
    r.received = x;
}

pub fn set_allocated(r: &mut Row, x: Kinds)
    ensures { r.new ≡ with_allocated r.old x }
{
    r.allocated = x;
}

pub fn set_pledged(r: &mut Row, x: u64)
    ensures { r.new ≡ with_pledged r.old x }
{
    r.pledged = x;
}

pub fn set_margin(r: &mut Row, x: u64)
    ensures { r.new ≡ with_margin r.old x }
{
    r.margin = x;
}
