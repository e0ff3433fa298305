// The text file ARCHIVE, which the third word names.
ghost use Rattle.std.specs.Prelude.{◌≤◌, ◌<◌, length};

use streams::Moved;
use streams::files::{replace_named, within};
use streams::optional::read_named;

// A line of 19 bytes for each of 65,535 numbers.
const LONGEST: usize = 1_245_165;

// The longest file, the end of its last line, and 256 lines more.
const ROOM: usize = 1_250_030;

// Reads the file, which need not be there.
fn read(rt: &HostRuntime, room: &mut [u8], longest: usize) -> Moved
    requires { longest < length room.old }
    ensures { result.count ≤ longest }
{
    let most = longest + 1;
    let read = read_named(rt, b"archive", b"read the archive", 3, &mut room[..most]);
    within(rt, b"archive", b"read the archive", 3, read, longest)
}

// Puts the lines of entries, of which there are some, into the file, but for those that it has: whether that failed. Where it has them all, nothing is written. The room comes by value, as
// its type says how long it is; it takes 1.25 MB of the stack, which has 8 MB.
fn put_fails(rt: &HostRuntime, blank: [u8; ROOM], entries: &[u16]) -> bool
    requires { length entries.now ≤ 768 }
{
    let mut room = blank;
    let before = read(rt, &mut room, LONGEST);
    if before.failed {
        return true;
    }
    let filed = archives::file(&mut room, before.count, entries);
    if !filed.put {
        return false;
    }
    let n = filed.count;
    let put = replace_named(rt, b"archive", b"write the archive", 3, &room[..n]);
    put.failed
}

// The same for any entries: where there are none, the file isn't looked at.
pub(crate) fn fails(rt: &HostRuntime, entries: &[u16]) -> bool
    requires { length entries.now ≤ 768 }
{
    if entries.len() == 0 {
        return false;
    }
    put_fails(rt, [0; ROOM], entries)
}
