// Arguments taken from a call's bytes. Numbers are high byte first.
ghost use Rattle.std.specs.Prelude.{◌≡◌, ◌+◌, ◌*◌, ◌≤◌, ◌<◌, length, IfSome};

use dayfile::{Kinds, Record};
use numbers::{number2, number4, number8};

// The most bytes of a piece, and the most elements of a list or a room.
pub(crate) const PIECE: usize = 65_536;

pub(crate) const LIST: usize = 4_096;

// A length of 4 bytes at a place, where they are there and it is no more than the most.
pub(crate) fn length_at(bytes: &[u8], at: usize, most: usize) -> Option<usize>
    ensures { IfSome result (λ n. (n ≤ most) × (at + 4 ≤ length bytes.now)) }
{
    if bytes.len().saturating_sub(at) < 4 {
        return None;
    }
    let n = number4(bytes, at) as usize;
    if most < n {
        return None;
    }
    Some(n)
}

fn kinds(bytes: &[u8], at: usize) -> Kinds
    requires { at + 32 ≤ length bytes.now }
{
    Kinds {
        cash: number8(bytes, at),
        deposits: number8(bytes, at + 8),
        guarantees: number8(bytes, at + 16),
        securities: number8(bytes, at + 24),
    }
}

// "serial 2, code 1, second mark byte 1, account 2, six amounts 8 each"
pub(crate) fn record(bytes: &[u8], at: usize) -> Record
    requires { at + 54 ≤ length bytes.now }
{
    Record {
        serial: number2(bytes, at),
        code: bytes[at + 2],
        named: bytes[at + 3],
        account: number2(bytes, at + 4),
        kinds: kinds(bytes, at + 6),
        pledged: number8(bytes, at + 38),
        margin: number8(bytes, at + 46),
    }
}

// A list's numbers, each as its bits say it.
pub(crate) fn list<T: Copy, F: Fn(u64) -> T>(bytes: &[u8], at: usize, n: usize, of: F) -> [T; LIST]
    requires callable { F.IsAlwaysCallable of }
    requires held { (n ≤ 4096) × (at + 8 * n ≤ length bytes.now) }
    ensures { length result ≡ 4096 }
{
    let mut list = [of(0); LIST];
    for i in 0..n {
        list[i] = of(number8(bytes, at + 8 * i));
    }
    list
}
