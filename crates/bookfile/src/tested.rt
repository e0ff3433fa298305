// Whether bytes are a book.
ghost use Rattle.std.specs.Prelude.{◌≡◌, ◌≤◌, length};
ghost use Rattle.sums.specs.Sum.{all};
ghost use Rattle.bookfile.specs.Versions.{size_of};
ghost use Rattle.bookfile.specs.Reading.{marked, yes_or_no, is_of};

use crate::Version;
use crate::forms::{size_of, sort_at, version_byte};

fn is_marked(v: Version, piece: &[u8]) -> bool
    requires { 4 ≤ length piece.now }
    ensures { result ≡ marked v piece.now }
{
    (piece[0] == b'L') & (piece[1] == b'V') & (piece[2] == b'B') & (piece[3] == version_byte(v))
}

// Each live and each mode is a yes or a no.
fn all_yes_or_no(v: Version, piece: &[u8]) -> bool
    requires { length piece.now ≡ size_of v }
    ensures { result ≡ all 256 (yes_or_no v piece.now) }
{
    (0..256).all(|i| {
        let sort = sort_at(v, i);
        (piece[sort + 1] <= 1) & (piece[sort + 84] <= 1)
    })
}

pub(crate) fn is_of(v: Version, piece: &[u8]) -> bool
    ensures { result ≡ is_of v piece.now }
{
    if piece.len() != size_of(v) {
        return false;
    }
    is_marked(v, piece) & all_yes_or_no(v, piece)
}
