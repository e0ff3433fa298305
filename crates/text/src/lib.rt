// Words and numbers put into a lent room of bytes, one after the other. Internal: no call outside the library names them.
#![tactic(auto)]

ghost use Rattle.std.specs.Prelude.{◌+◌, ◌*◌, ◌≤◌, length, take};
ghost use Rattle.text.specs.Numbers.{followed, spaced, and_spaces};
ghost use Rattle.text.specs.Words.{and_space, sort_word, refused_at};
ghost use Rattle.text.specs.Inner.{Puts};

pub mod decimals;
pub mod line;
mod number;
pub mod texts;

pub use number::put_decimal;

// Puts a text at a place, and gives the place after it.
pub fn put_text(room: &mut [u8], at: usize, text: &[u8]) -> usize
    requires { at + length text.now ≤ length room.old }
    ensures { Puts room.old at text.now room.new result }
{
    let end = at + text.len();
    room[at..end].copy_from_slice(text);
    end
}

// Puts a number and the byte after it, and gives the place after both.
pub fn put_number(room: &mut [u8], at: usize, n: u64, mark: u8) -> usize
    requires { at + 21 ≤ length room.old }
    ensures puts { Puts room.old at (followed n mark) room.new result }
    ensures upper_bound { result ≤ at + 21 }
{
    let p = number::put_decimal(room, at, n);
    room[p] = mark;
    p + 1
}

// The same for a number of 16 bits, which takes five digits at most: no loop, and few steps.
// Not one with put_number: 21 bytes of room are more than a short number asks for.
pub fn put_short(room: &mut [u8], at: usize, n: u16, mark: u8) -> usize
    requires { at + 6 ≤ length room.old }
    ensures puts { Puts room.old at (followed n mark) room.new result }
    ensures upper_bound { result ≤ at + 6 }
{
    let p = number::put_five(room, at, n);
    room[p] = mark;
    p + 1
}

// Puts the word of an account's sort and a space, and gives the place after both.
pub fn put_sort(room: &mut [u8], at: usize, sort: u16) -> usize
    requires { at + 7 ≤ length room.old }
    ensures puts { Puts room.old at (and_space (sort_word sort)) room.new result }
    ensures upper_bound { result ≤ at + 7 }
{
    match sort {
        0 => put_text(room, at, b"cm "),
        1 => put_text(room, at, b"tm "),
        2 => put_text(room, at, b"client "),
        _ => put_text(room, at, b"cp "),
    }
}

// Puts a refusal, the place of the record that it is given for and the byte after both, and gives the place after that.
pub fn put_refused(room: &mut [u8], at: usize, refusal: u8, index: usize, mark: u8) -> usize
    requires { at + 52 ≤ length room.old }
    ensures puts { Puts room.old at (refused_at refusal index mark) room.new result }
    ensures upper_bound { result ≤ at + 52 }
{
    let p = put_number(room, at, refusal as u64, b' ');
    let q = put_text(room, p, b"at record ");
    put_number(room, q, index as u64, mark)
}

// Puts a list's first n numbers with a space behind each, and gives the place after them.
pub fn put_each(room: &mut [u8], at: usize, list: &[u64], n: usize) -> usize
    requires { (n ≤ length list.now) × (at + 21 * n ≤ length room.old) }
    ensures puts { Puts room.old at (and_spaces (take n list.now)) room.new result }
    ensures upper_bound { result ≤ at + 21 * n }
{
    let mut place = at;
    for x in &list[..n] {
        place = put_number(room, place, *x, b' ');
    }
    place
}

// Puts numbers with spaces between and the line's end behind, and gives the place after it.
pub fn put_spaced(room: &mut [u8], at: usize, list: &[u64]) -> usize
    requires { (1 ≤ length list.now) × (at + 21 * length list.now ≤ length room.old) }
    ensures puts { Puts room.old at (spaced list.now) room.new result }
    ensures upper_bound { result ≤ at + 21 * length list.now }
{
    let last = list.len() - 1;
    let place = put_each(room, at, list, last);
    put_number(room, place, list[last], b'\n')
}
