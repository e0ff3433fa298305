// Call 16: retired rows moved to a lent archive (K11).
ghost use Rattle.std.specs.Prelude.{◌≤◌, length, IfSome};

use crate::call::Told;
use crate::changed::put_book;
use crate::rooms::{lent, put_front, widened};
use crate::taken::{LIST, length_at};
use archival::Table;

// Archives with a room of n, and puts the line.
fn put_archived(room: &mut [u8], before: Table, n: usize) -> usize
    requires { (n ≤ 4096) × (178000 ≤ length room.old) }
    ensures { result ≤ length room.new }
{
    let end = n + 2;
    let mut archive = lent(n, |i| (i % 65536) as u16);
    let got = archival::archive(before, &mut archive[..n]);
    let mut line = widened(&archive[..n]);
    line[0] = u64::from(got.refusal);
    line[1] = u64::from(got.moved);
    let at = put_front(room, line, end);
    put_book(room, at, before, got.table)
}

// One shape with `needs`: a closure for the line would need a contract that is longer than their bodies.
pub(crate) fn archive(bytes: &[u8], table: Table, room: &mut [u8]) -> Option<Told>
    requires { 178000 ≤ length room.old }
    ensures { IfSome result (λ t. (t.size ≤ length bytes.now) × (t.text ≤ length room.new)) }
{
    let n = length_at(bytes, 0, LIST)?;
    Some(Told {
        size: 4,
        text: put_archived(room, table, n),
    })
}
