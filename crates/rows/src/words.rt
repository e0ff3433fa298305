// A row with one of its words put anew (by value, over the setters), a row just opened, and the row that is all zero.
ghost use Rattle.std.specs.Prelude.{◌≡◌};
ghost use Rattle.rows.specs.Rows.{no_row, opened_row, with_live, with_received, with_allocated, with_pledged, with_margin};

use super::setters::{set_allocated, set_live, set_margin, set_pledged, set_received};
use super::{Kinds, NO_KINDS, Row};

pub fn no_row() -> Row
    ensures { result ≡ no_row }
{
    Row {
        sort: 0,
        live: false,
        tm: 0,
        received: NO_KINDS,
        allocated: NO_KINDS,
        pledged: 0,
        margin: 0,
    }
}

pub fn opened_row(sort: u8, tm: u16) -> Row
    ensures { result ≡ opened_row sort tm }
{
    Row {
        sort,
        live: true,
        tm,
        ..no_row()
    }
}

pub fn with_live(r: Row, x: bool) -> Row
    ensures { result ≡ with_live r x }
{
    let mut n = r;
    set_live(&mut n, x);
    n
}

pub fn with_received(r: Row, x: Kinds) -> Row
    ensures { result ≡ with_received r x }
{
    let mut n = r;
    set_received(&mut n, x);
    n
}

pub fn with_allocated(r: Row, x: Kinds) -> Row
    ensures { result ≡ with_allocated r x }
{
    let mut n = r;
    set_allocated(&mut n, x);
    n
}

pub fn with_pledged(r: Row, x: u64) -> Row
    ensures { result ≡ with_pledged r x }
{
    let mut n = r;
    set_pledged(&mut n, x);
    n
}

pub fn with_margin(r: Row, x: u64) -> Row
    ensures { result ≡ with_margin r x }
{
    let mut n = r;
    set_margin(&mut n, x);
    n
}
