// A number's decimal digits, put into a room.
ghost use Rattle.std.specs.Prelude.{[], ◌∷◌, ◌+◌, ◌≤◌, ◌<◌, length};
ghost use Rattle.text.specs.Numbers.{digit, decimal};
ghost use Rattle.text.specs.Inner.{Puts, pair};

fn put_digit(room: &mut [u8], at: usize, d: u16) -> usize
    requires { (d < 10) × (at < length room.old) }
    ensures { Puts room.old at (digit d ∷ []) room.new result }
{
    room[at] = 48 + d as u8;
    at + 1
}

// Puts both digits of a number below 100, also where the first is 0.
fn put_pair(room: &mut [u8], at: usize, n: u16) -> usize
    requires { (n < 100) × (at + 2 ≤ length room.old) }
    ensures { Puts room.old at (pair n) room.new result }
{
    let p = put_digit(room, at, n / 10);
    put_digit(room, p, n % 10)
}

// Puts a number below 100.
fn put_two(room: &mut [u8], at: usize, n: u16) -> usize
    requires { (n < 100) × (at + 2 ≤ length room.old) }
    ensures { Puts room.old at (decimal n) room.new result }
{
    if n < 10 {
        put_digit(room, at, n)
    } else {
        put_pair(room, at, n)
    }
}

// Puts a number below 10,000: its first digits, then its last two.
fn put_four(room: &mut [u8], at: usize, n: u16) -> usize
    requires { (n < 10000) × (at + 4 ≤ length room.old) }
    ensures { Puts room.old at (decimal n) room.new result }
{
    if n < 100 {
        return put_two(room, at, n);
    }
    let p = put_two(room, at, n / 100);
    put_pair(room, p, n % 100)
}

// Puts any number of 16 bits, in the same way.
// Not a loop over pairs of digits: five digits are two steps.
pub(crate) fn put_five(room: &mut [u8], at: usize, n: u16) -> usize
    requires { at + 5 ≤ length room.old }
    ensures { Puts room.old at (decimal n) room.new result }
{
    if n < 100 {
        return put_two(room, at, n);
    }
    let p = put_four(room, at, n / 100);
    put_pair(room, p, n % 100)
}

// Puts any number of 64 bits, in the same way.
pub fn put_decimal(room: &mut [u8], at: usize, n: u64) -> usize
    requires { at + 20 ≤ length room.old }
    ensures { Puts room.old at (decimal n) room.new result }
{
    if n < 100 {
        return put_two(room, at, n as u16);
    }
    let p = put_decimal(room, at, n / 100);
    put_pair(room, p, (n % 100) as u16)
}
