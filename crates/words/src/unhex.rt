// Bytes in hexadecimal, read at a place of a line.
ghost use Rattle.std.specs.Prelude.{◌≡◌, ◌<◌, ◌≤◌, length, drop, MatchOption};
ghost use Rattle.words.specs.Hex.{hex_value, hex_from};
ghost use Rattle.words.specs.Inner.{Unhexed};

use crate::scan::is_blank;

// What a digit says.
#[tactic(auto, unfolding(crate::specs::Hex::hex_value, sums::specs::Choice::pick))]
fn hex_value(b: u8) -> Option<u8>
    ensures { MatchOption result (hex_value b ≡ 16) (λ d. (hex_value b ≡ d) × (d < 16)) }
{
    match b {
        b'0'..=b'9' => Some(b - b'0'),
        b'A'..=b'F' => Some(b - b'A' + 10),
        b'a'..=b'f' => Some(b - b'a' + 10),
        _ => None,
    }
}

// How many bytes were read, and the place after them.
#[derive(Clone, Copy)]
pub(crate) struct Count {
    pub count: usize,
    pub next: usize,
}

// Up to 70 bytes from a place on, into a room.
pub(crate) fn hex_at(line: &[u8], at: usize, room: &mut [u8]) -> Count
    requires { 70 ≤ length room.old }
    ensures { Unhexed (hex_from 70 (drop at line.now) at) result room.new }
{
    let mut n: usize = 0;
    let mut i = at;
    // A `while`: a blank moves the place alone, a byte both.
    while n < 70 {
        if line.len() <= i {
            return Count { count: n, next: i };
        }
        if line.len() - i < 2 {
            return Count { count: n, next: i };
        }
        if is_blank(line[i]) {
            i += 1;
            continue;
        }
        let Some(high) = hex_value(line[i]) else {
            return Count { count: n, next: i };
        };
        let Some(low) = hex_value(line[i + 1]) else {
            return Count { count: n, next: i };
        };
        room[n] = 16 * high + low;
        n += 1;
        i += 2;
    }
    Count { count: n, next: i }
}
