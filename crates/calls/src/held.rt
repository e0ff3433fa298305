// The bytes held of the input: a call is answered only where all of it is held.
ghost use Rattle.std.specs.Prelude.{◌≡◌, ◌-◌, ◌≤◌, length, IfSome};

use streams::standard::read_input;

const SPACE: usize = 262_144;

// The longest call: its byte, a book of version 2, a piece's length, the longest piece, a place.
const LONGEST: usize = 89_881;

// Where the next call begins, where what is held ends, and whether the input ends there too:
// a fact of its own, since both places are wanted either way.
#[derive(Clone, Copy)]
pub(crate) struct Stands {
    pub(crate) at: usize,
    pub(crate) end: usize,
    pub(crate) ended: bool,
}

pub(crate) fn blank() -> [u8; SPACE]
    ensures { length result ≡ 262144 }
{
    [0; SPACE]
}

// Brings the bytes from a place on to the front, and gives how many they are.
fn to_front(space: &mut [u8], from: usize, to: usize) -> usize
    requires { (from ≤ to) × (to ≤ length space.old) }
    ensures { result ≡ to - from }
{
    let n = to - from;
    for i in 0..n {
        space[i] = space[from + i];
    }
    n
}

// Reads on where the longest call might not be held whole, unless that fails. So one that isn't whole after this is cut short, or has a
// length past its limit: no call either way.
pub(crate) fn more(
    rt: &HostRuntime,
    space: &mut [u8],
    at: usize,
    end: usize,
    ended: bool,
) -> Option<Stands>
    requires { (at ≤ end) × (end ≤ length space.old) }
    ensures { IfSome result (λ s. (s.at ≤ s.end) × (s.end ≤ length space.new)) }
{
    if ended | (LONGEST <= end - at) {
        return Some(Stands { at, end, ended });
    }
    let rest = to_front(space, at, end);
    let got = read_input(rt, b"calls", &mut space[rest..]);
    if got.failed {
        return None;
    }
    let end = rest + got.count;
    Some(Stands {
        at: 0,
        end,
        ended: end < space.len(),
    })
}
