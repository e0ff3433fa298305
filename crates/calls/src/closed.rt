// Call 8: the close-out.
ghost use Rattle.std.specs.Prelude.{◌+◌, ◌*◌, ◌≤◌, length, IfSome};

use crate::call::Told;
use crate::rooms::{numbers, put_line};
use crate::taken::{LIST, length_at, list};
use closeout::Table;

// Closes out a book with losses and a room of n, and puts the line.
fn put_closed(room: &mut [u8], t: Table, losses: &[u64], n: usize) -> usize
    requires { (n ≤ 4096) × (178000 ≤ length room.old) }
    ensures { result ≤ length room.new }
{
    let end = n + 2;
    let mut line = numbers(n);
    let closed = closeout::close_out(t, losses, &mut line[2..end]);
    line[0] = u64::from(closed.refusal);
    line[1] = closed.total;
    put_line(room, 0, line, 0, end)
}

// Where a list stands and how many numbers it has, how long a room is asked with, and where the call ends.
#[derive(Clone, Copy)]
pub(crate) struct Asked {
    pub(crate) from: usize,
    pub(crate) count: usize,
    pub(crate) room: usize,
    pub(crate) end: usize,
}

// The lengths of a list and a room behind it, each within its limit and all its bytes there.
pub(crate) fn lengths(bytes: &[u8], at: usize) -> Option<Asked>
    requires { at ≤ 2 }
    ensures { IfSome result (λ a. (a.count ≤ 4096) × (a.from + 8 * a.count ≤ length bytes.now) × (a.room ≤ 4096) × (a.end ≤ length bytes.now)) }
{
    let count = length_at(bytes, at, LIST)?;
    let from = at + 4;
    let to = from + 8 * count;
    let room = length_at(bytes, to, LIST)?;
    Some(Asked {
        from,
        count,
        room,
        end: to + 4,
    })
}

pub(crate) fn close_out(bytes: &[u8], table: Table, room: &mut [u8]) -> Option<Told>
    requires { 178000 ≤ length room.old }
    ensures { IfSome result (λ t. (t.size ≤ length bytes.now) × (t.text ≤ length room.new)) }
{
    let asked = lengths(bytes, 0)?;
    let losses = list(bytes, asked.from, asked.count, |bits| bits);
    Some(Told {
        size: asked.end,
        text: put_closed(room, table, &losses[..asked.count], asked.room),
    })
}
