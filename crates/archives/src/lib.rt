// The text file of archived accounts, a line each, in the room that it was read into (K11). Internal: only the program `archive` names it.
#![tactic(auto)]

ghost use Rattle.std.specs.Prelude.{◌≡◌, ◌+◌, ◌*◌, ◌/◌, ◌≤◌, ◌<◌, ltb, length, take};
ghost use Rattle.archives.specs.Entries.{entry_line};
ghost use Rattle.archives.specs.Files.{ended as Files·ended, with_line, filed};
ghost use Rattle.archives.specs.Inner.{Holds};

use entry::put_entry;
use found::has_line;
use text::put_text;

mod entry;
mod found;

// Whether a line was put, and how many bytes the file then has: the count holds in either case, so this is no Option.
#[derive(Clone, Copy)]
pub struct Filed {
    pub put: bool,
    pub count: usize,
}

// Ends the last line of the file in the room's first n bytes, where it isn't, and gives how many they are then.
fn end_line(room: &mut [u8], n: usize) -> usize
    requires { n < length room.old }
    ensures holds { Holds room.new result (Files·ended (take n room.old)) }
    ensures upper_bound { result ≤ n + 1 }
{
    if n == 0 {
        return n;
    }
    if room[n - 1] == b'\n' {
        return n;
    }
    room[n] = b'\n';
    n + 1
}

// Puts a line behind the file in the room's first n bytes, unless it has it.
fn with_line(room: &mut [u8], n: usize, line: &[u8]) -> usize
    requires { n + length line.now ≤ length room.old }
    ensures holds { Holds room.new result (with_line (take n room.old) line.now) }
    ensures upper_bound { result ≤ n + length line.now }
{
    if has_line(&room[..n], line) {
        return n;
    }
    put_text(room, n, line)
}

// The same for the line of an entry, which takes 19 bytes at most.
fn with_entry(room: &mut [u8], n: usize, number: u16, sort: u16, tm: u16) -> usize
    requires { n + 19 ≤ length room.old }
    ensures holds { Holds room.new result (with_line (take n room.old) (entry_line number sort tm)) }
    ensures upper_bound { result ≤ n + 19 }
{
    let mut line = [0u8; 19];
    let k = put_entry(&mut line, number, sort, tm);
    with_line(room, n, &line[..k])
}

// Puts the lines of entries, three numbers each, behind the file in the room's first n bytes, but for those that it has.
pub fn file(room: &mut [u8], n: usize, entries: &[u16]) -> Filed
    requires { n + 1 + 19 * (length entries.now / 3) ≤ length room.old }
    ensures holds { Holds room.new result.count (filed (take n room.old) entries.now) }
    ensures put_value { result.put ≡ ltb (length (Files·ended (take n room.old))) result.count }
{
    let before = end_line(room, n);
    let mut count = before;
    for i in 0..entries.len() / 3 {
        let k = 3 * i;
        count = with_entry(room, count, entries[k], entries[k + 1], entries[k + 2]);
    }
    Filed {
        put: before < count,
        count,
    }
}
