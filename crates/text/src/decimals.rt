// A number in decimal digits. One too large for eight bytes counts as the largest of eight bytes.
ghost use Rattle.std.specs.Prelude.{◌≡◌, ◌≤◌, MatchOption};
ghost use Rattle.text.specs.Decimals.{digit_in, with_digit, decimal_of};

#[tactic(auto, unfolding(sums::specs::Choice::pick))]
fn with_digit(n: u64, digit: u64) -> u64
    requires { digit ≤ 9 }
    ensures { result ≡ with_digit n digit }
{
    n.saturating_mul(10).saturating_add(digit)
}

// The digit that a byte is.
#[tactic(auto, unfolding(sums::specs::Choice::pick))]
fn digit_of(byte: u8) -> Option<u64>
    ensures { MatchOption result (digit_in byte ≡ 10) (λ d. (digit_in byte ≡ d) × (d ≤ 9)) }
{
    match byte {
        b'0'..=b'9' => Some((byte - b'0') as u64),
        _ => None,
    }
}

// The number that a word is, or that it is none.
pub fn number_of(word: &[u8]) -> Option<u64>
    ensures { result ≡ decimal_of word.now }
{
    if word.is_empty() {
        return None;
    }
    let mut n: u64 = 0;
    for byte in word {
        n = with_digit(n, digit_of(*byte)?);
    }
    Some(n)
}
