// The parts of a text.
ghost use Rattle.std.specs.Prelude.{◌≡◌, ◌≤◌, ◌==◌, length, position};
ghost use Rattle.margins.specs.Inner.{in_front};

fn first_place(text: &[u8], mark: u8) -> Option<usize>
    ensures { result ≡ position (λ b. b == mark) text.now }
{
    text.iter().position(|byte| *byte == mark)
}

// How many bytes stand in front of the first mark, or all.
pub(crate) fn up_to(text: &[u8], mark: u8) -> usize
    ensures value { result ≡ in_front mark text.now }
    ensures upper_bound { result ≤ length text.now }
{
    first_place(text, mark).unwrap_or(text.len())
}
