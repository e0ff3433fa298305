// The words of sides.
ghost use Rattle.std.specs.Prelude.{◌≡◌};
ghost use Rattle.margins.specs.Sides.{side_of};

use currency::Side;
use streams::words::is_same;

// Not a `match` on the bytes: it leaves a goal for each byte of each word.
#[tactic(auto, unfolding(crate::specs::Sides::side_of, sums::specs::Choice::pick))]
pub(crate) fn side_of(word: &[u8]) -> Option<Side>
    ensures { result ≡ side_of word.now }
{
    if is_same(word, b"futures") {
        return Some(Side::Futures);
    }
    if is_same(word, b"short") {
        return Some(Side::Short);
    }
    if is_same(word, b"long") {
        return Some(Side::Long);
    }
    if is_same(word, b"spread") {
        return Some(Side::Spread);
    }
    None
}
