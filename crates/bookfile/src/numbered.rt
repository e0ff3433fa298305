// The numbers of a book's rows and the next one, out of its bytes (K11).
ghost use Rattle.std.specs.Prelude.{◌≡◌, ◌<◌, ltb, length, drop};
ghost use Rattle.sums.specs.Choice.{pick};
ghost use Rattle.sums.specs.Listed.{list_to};
ghost use Rattle.numbers.specs.Bytes.{number};
ghost use Rattle.book.specs.Placed.{place_numbers};
ghost use Rattle.bookfile.specs.declared.Version.TheVariants.{Two};
ghost use Rattle.bookfile.specs.Versions.{size_of, place_at};
ghost use Rattle.bookfile.specs.Reading.{next_in, numbers_in};

use crate::Version;
use crate::forms::sort_at;
use numbers::{number2, number4};
use std::array::from_fn;

// A book of version 1 has its places for numbers.
fn place_number(count: u16, i: usize) -> u16
    requires { i < 256 }
    ensures { result ≡ pick (ltb i count) i 0 }
{
    if i < count as usize { i as u16 } else { 0 }
}

fn place_numbers(count: u16) -> [u16; 256]
    ensures { result ≡ place_numbers count }
{
    from_fn(|i| place_number(count, i))
}

fn written_numbers(piece: &[u8]) -> [u16; 256]
    requires { length piece.now ≡ size_of Two }
    ensures { result ≡ list_to (λ i. number 2 (drop (place_at Two i) piece.now)) 256 }
{
    from_fn(|i| number2(piece, sort_at(Version::Two, i) - 2))
}

pub(crate) fn numbers_in(v: Version, piece: &[u8], count: u16) -> [u16; 256]
    requires { length piece.now ≡ size_of v }
    ensures { result ≡ numbers_in v piece.now count }
{
    match v {
        Version::One => place_numbers(count),
        Version::Two => written_numbers(piece),
    }
}

pub(crate) fn next_in(v: Version, piece: &[u8], count: u16) -> u32
    requires { length piece.now ≡ size_of v }
    ensures { result ≡ next_in v piece.now count }
{
    match v {
        Version::One => count as u32,
        Version::Two => number4(piece, 8),
    }
}
