// The line of an archived account.
ghost use Rattle.std.specs.Prelude.{◌≤◌, length};
ghost use Rattle.text.specs.Inner.{Puts};
ghost use Rattle.archives.specs.Entries.{entry_line};

use text::{put_short, put_sort};

// Puts its number, its sort's word and its TM's number or 0 at the room's start, and gives how many bytes they are.
pub(crate) fn put_entry(room: &mut [u8], number: u16, sort: u16, tm: u16) -> usize
    requires { 19 ≤ length room.old }
    ensures puts { Puts room.old 0 (entry_line number sort tm) room.new result }
    ensures upper_bound { result ≤ 19 }
{
    let p = put_short(room, 0, number, b' ');
    let q = put_sort(room, p, sort);
    put_short(room, q, tm, b'\n')
}
