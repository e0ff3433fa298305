// The texts of the numbers below 1,000, made once and lent: each as one word, so that a number is put by a read and a store of four bytes, with no division.
ghost use Rattle.std.specs.Prelude.{[], ◌∷◌, ◌≡◌, ◌+◌, ◌≤◌, ◌<◌, length};
ghost use Rattle.text.specs.Numbers.{space, followed};
ghost use Rattle.text.specs.Inner.{Puts, Spills, four_of, IsText, Texts};

// Four bytes as a word, the first one lowest.
fn word(a: u64, b: u64, c: u64, d: u64) -> u64
    requires { (a < 256) × (b < 256) × (c < 256) × (d < 256) }
    ensures { (result < 4294967296) × (four_of result ≡ a ∷ b ∷ c ∷ d ∷ []) }
{
    a + 256 * b + 65536 * c + 16777216 * d
}

// A number's text as a word, its two halves of four bytes each.
fn text_of(n: u64) -> u64
    requires { n < 1000 }
    ensures { IsText n result }
{
    let a = 48 + n / 100;
    let b = 48 + n / 10 % 10;
    let c = 48 + n % 10;
    if n < 10 {
        return word(c, 32, 0, 0) + 4294967296 * word(a, b, c, 2);
    }
    if n < 100 {
        return word(b, c, 32, 0) + 4294967296 * word(a, b, c, 3);
    }
    word(a, b, c, 32) + 4294967296 * word(a, b, c, 4)
}

// Makes the table, in place: an array given by value would stand in the caller's frame twice.
pub fn fill(t: &mut [u64; 1000])
    requires { length t.old ≡ 1000 }
    ensures { Texts t.new }
{
    for n in 0..1000 {
        t[n] = text_of(n as u64);
    }
}

// Puts the four lowest bytes of a word; one store in the compiled program.
fn put_word(room: &mut [u8], at: usize, x: u64)
    requires { at + 4 ≤ length room.old }
    ensures { Puts room.old at (four_of x) room.new (at + 4) }
{
    room[at] = (x % 256) as u8;
    room[at + 1] = (x / 256 % 256) as u8;
    room[at + 2] = (x / 65536 % 256) as u8;
    room[at + 3] = (x / 16777216 % 256) as u8;
}

// Puts a number below 1,000 and a space: four bytes, of which two may stand behind the place that is given. The word's highest byte tells that place.
fn put_below(t: &[u64; 1000], room: &mut [u8], at: usize, n: u16) -> usize
    requires { Texts t.now × (n < 1000) × (at + 4 ≤ length room.old) }
    ensures { Spills room.old at (followed n space) room.new result }
{
    let x = t[n as usize];
    put_word(room, at, x);
    at + (x / 72057594037927936) as usize
}

// Puts any number of 16 bits and a space: its thousands, and three digits over the space behind them.
pub(crate) fn put_spilling(t: &[u64; 1000], room: &mut [u8], at: usize, n: u16) -> usize
    requires { Texts t.now × (at + 6 ≤ length room.old) }
    ensures spills { Spills room.old at (followed n space) room.new result }
    ensures upper_bound { result ≤ at + 6 }
{
    if n < 1000 {
        return put_below(t, room, at, n);
    }
    let p = put_below(t, room, at, n / 1000) - 1;
    put_word(room, p, t[(n % 1000) as usize] / 4294967296);
    room[p + 3] = b' ';
    p + 4
}
