// Lent rooms as they are beforehand: "place i (from 0) of a lent room holds i + 1 beforehand, in rooms of bytes modulo
// 256", in the archive's of numbers of 2. A line's numbers are gathered in one list: the room's from place 2 on, those in front of it before that.
ghost use Rattle.std.specs.Prelude.{◌≡◌, ◌+◌, ◌≤◌, ◌<◌, length};

use crate::taken::LIST;
use text::{put_each, put_spaced};

// The most numbers of a part of a line: count, serial, next number, and seventeen for each of 256 places.
pub(crate) const LINE: usize = 4_355;

pub(crate) fn numbers(n: usize) -> [u64; LINE]
    requires { n ≤ 4096 }
    ensures { length result ≡ 4355 }
{
    let mut line = [0; LINE];
    for i in 0..n {
        line[i + 2] = i as u64 + 1;
    }
    line
}

// A lent room of n bytes or words, each by its place from 1 on.
pub(crate) fn lent<T: Copy, F: Fn(usize) -> T>(n: usize, of: F) -> [T; LIST]
    requires callable { F.IsAlwaysCallable of }
    requires short { n ≤ 4096 }
    ensures { length result ≡ 4096 }
{
    let mut room = [of(0); LIST];
    for i in 0..n {
        room[i] = of(i + 1);
    }
    room
}

// A room's bytes or words as numbers of a line.
pub(crate) fn widened<T: Copy + Into<u64>>(room: &[T]) -> [u64; LINE]
    requires { length room.now ≤ 4096 }
    ensures { length result ≡ 4355 }
{
    let mut line = [0; LINE];
    for (i, x) in room.iter().enumerate() {
        line[i + 2] = (*x).into();
    }
    line
}

// Puts a line's first n numbers with a space behind each: more follows.
pub(crate) fn put_front(room: &mut [u8], line: [u64; LINE], n: usize) -> usize
    requires { (n ≤ 4098) × (86058 ≤ length room.old) }
    ensures { result ≤ 86058 }
{
    put_each(room, 0, &line[..n], n)
}

// Puts the numbers of a line from one place up to another, and the line's end behind them.
pub(crate) fn put_line(
    room: &mut [u8],
    at: usize,
    line: [u64; LINE],
    from: usize,
    end: usize,
) -> usize
    requires { (from < end) × (end ≤ 4355) × (at + 91455 ≤ length room.old) }
    ensures { result ≤ length room.new }
{
    put_spaced(room, at, &line[from..end])
}
