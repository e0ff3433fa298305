// A table's arrays, out of a book's bytes.
ghost use Rattle.std.specs.Prelude.{◌≡◌, ◌+◌, ◌*◌, ◌/◌, ◌%◌, ◌<◌, length, drop, get_or};
ghost use Rattle.sums.specs.Listed.{list_to};
ghost use Rattle.numbers.specs.Bytes.{number};
ghost use Rattle.bookfile.specs.Versions.{size_of, sort_at};
ghost use Rattle.bookfile.specs.Reading.{yes_at};

use crate::Version;
use crate::forms::sort_at;
use numbers::{number2, number8};
use std::array::from_fn;

pub(crate) fn sorts(v: Version, piece: &[u8]) -> [u8; 256]
    requires { length piece.now ≡ size_of v }
    ensures { result ≡ list_to (λ i. get_or piece.now (sort_at v i) 0) 256 }
{
    from_fn(|i| piece[sort_at(v, i)])
}

// The yes or no of each place, at an offset from its sort.
pub(crate) fn yeses(v: Version, piece: &[u8], offset: usize) -> [bool; 256]
    requires { (length piece.now ≡ size_of v) × (offset < 93) }
    ensures { result ≡ list_to (λ i. yes_at piece.now (sort_at v i + offset)) 256 }
{
    from_fn(|i| piece[sort_at(v, i) + offset] == 1)
}

pub(crate) fn tms(v: Version, piece: &[u8]) -> [u16; 256]
    requires { length piece.now ≡ size_of v }
    ensures { result ≡ list_to (λ i. number 2 (drop (sort_at v i + 2) piece.now)) 256 }
{
    from_fn(|i| number2(piece, sort_at(v, i) + 2))
}

pub(crate) fn needs(v: Version, piece: &[u8]) -> [u64; 256]
    requires { length piece.now ≡ size_of v }
    ensures { result ≡ list_to (λ i. number 8 (drop (sort_at v i + 85) piece.now)) 256 }
{
    from_fn(|i| number8(piece, sort_at(v, i) + 85))
}

// In a table's order: amount k of account i at 256 k + i.
pub(crate) fn amounts(v: Version, piece: &[u8]) -> [u64; 2560]
    requires { length piece.now ≡ size_of v }
    ensures { result ≡ list_to (λ n. number 8 (drop (sort_at v (n % 256) + (4 + 8 * (n / 256))) piece.now)) 2560 }
{
    from_fn(|n| number8(piece, sort_at(v, n % 256) + (4 + 8 * (n / 256))))
}
