// The lines gathered for standard output.
ghost use Rattle.std.specs.Prelude.{◌≡◌, ◌+◌, ◌≤◌, length, IfSome};

use streams::Moved;
use streams::standard::write_output;
use text::{put_number, put_text};

// Twice as much as the longest line takes, and more.
const ROOM: usize = 393_216;

const HALF: usize = 196_608;

pub(crate) fn blank() -> [u8; ROOM]
    ensures { length result ≡ 393216 }
{
    [0; ROOM]
}

pub(crate) fn write(rt: &HostRuntime, room: &[u8], put: usize) -> Moved
    requires { put ≤ length room.now }
{
    write_output(rt, b"calls", &room[..put])
}

// Writes the lines once they fill more than half of the room, and gives how many bytes are left to write, unless a write failed.
pub(crate) fn written(rt: &HostRuntime, room: &[u8], put: usize) -> Option<usize>
    requires { put ≤ length room.now }
    ensures { IfSome result (λ left. left ≤ 196608) }
{
    if put <= HALF {
        return Some(put);
    }
    let moved = write(rt, room, put);
    if moved.failed {
        return None;
    }
    Some(0)
}

// Writes the last lines, behind them "`bad N`, N the number of calls answered".
pub(crate) fn write_bad(rt: &HostRuntime, room: &mut [u8], put: usize, answered: u64)
    requires { put + 25 ≤ length room.old }
{
    let p = put_text(room, put, b"bad ");
    let end = put_number(room, p, answered, b'\n');
    write(rt, room, end);
}
