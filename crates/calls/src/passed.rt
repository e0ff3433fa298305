// Call 17: how much would have passed.
ghost use Rattle.std.specs.Prelude.{◌≤◌, length, IfSome};

use crate::call::Told;
use crate::taken::record;
use most::{Record, Table};
use text::put_spaced;

fn put_most(room: &mut [u8], table: Table, r: Record) -> usize
    requires { 178000 ≤ length room.old }
    ensures { result ≤ length room.new }
{
    let largest = most::most(table, r);
    let list = [u64::from(largest.refusal), largest.amount];
    put_spaced(room, 0, &list)
}

pub(crate) fn most(bytes: &[u8], table: Table, room: &mut [u8]) -> Option<Told>
    requires { 178000 ≤ length room.old }
    ensures { IfSome result (λ t. (t.size ≤ length bytes.now) × (t.text ≤ length room.new)) }
{
    if bytes.len() < 54 {
        return None;
    }
    Some(Told {
        size: 54,
        text: put_most(room, table, record(bytes, 0)),
    })
}
