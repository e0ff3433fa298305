// Lines of five numbers, put into a room one after the other. A number's text may spill up to two bytes; the next number covers them, and the last spills none.
ghost use Rattle.std.specs.Prelude.{[], ◌∷◌, ◌+◌, ◌*◌, ◌≤◌, length};
ghost use Rattle.text.specs.Numbers.{spaced, lines_to};
ghost use Rattle.text.specs.Inner.{Puts, Texts};

use crate::texts::put_spilling;
use crate::{put_short, put_text};

// Puts a line's last two numbers, the last of which is 0 in most lines, and gives the place after them.
fn put_end(t: &[u64; 1000], room: &mut [u8], at: usize, refusal: u16, given: u16) -> usize
    requires { Texts t.now × (at + 12 ≤ length room.old) }
    ensures { Puts room.old at (spaced (refusal ∷ given ∷ [])) room.new result }
{
    let p = put_spilling(t, room, at, refusal);
    if given == 0 {
        return put_text(room, p, b"0\n");
    }
    put_short(room, p, given, b'\n')
}

// Puts one line, and gives the place after it.
pub fn put_line(
    t: &[u64; 1000],
    room: &mut [u8],
    at: usize,
    serial: u16,
    code: u16,
    account: u16,
    refusal: u16,
    given: u16,
) -> usize
    requires { Texts t.now × (at + 32 ≤ length room.old) }
    ensures { Puts room.old at (spaced (serial ∷ code ∷ account ∷ refusal ∷ given ∷ [])) room.new result }
{
    let p1 = put_spilling(t, room, at, serial);
    let p2 = put_spilling(t, room, p1, code);
    let p3 = put_spilling(t, room, p2, account);
    put_end(t, room, p3, refusal, given)
}

// Puts the lines of the first count records, five numbers each, and gives how long they are.
pub fn put_lines(t: &[u64; 1000], room: &mut [u8], numbers: &[u16], count: usize) -> usize
    requires { Texts t.now × (5 * count ≤ length numbers.now) × (32 * count ≤ length room.old) }
    ensures { Puts room.old 0 (lines_to numbers.now count) room.new result }
{
    let mut at: usize = 0;
    for i in 0..count {
        let k = 5 * i;
        at = put_line(
            t,
            room,
            at,
            numbers[k],
            numbers[k + 1],
            numbers[k + 2],
            numbers[k + 3],
            numbers[k + 4],
        );
    }
    at
}
