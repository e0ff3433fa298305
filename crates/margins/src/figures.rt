// The words behind `figures`: PREMIUM LOSS, and at the end of day EXERCISE SETTLEMENT behind them.
ghost use Rattle.std.specs.Prelude.{◌∷◌, ◌≡◌};
ghost use Rattle.margins.specs.Words.{words_of};
ghost use Rattle.margins.specs.Figures.{above_zero, below_zero, figure_of, told, figures_behind};

use crate::lines::Line;
use crate::words::up_to;
use text::decimals::number_of;

// One client's figures, as `exposure` takes them.
#[derive(Clone, Copy)]
pub(crate) struct Figures {
    pub(crate) premium: i64,
    pub(crate) loss: i64,
    pub(crate) exercise: i64,
    pub(crate) settlement: i64,
}

// Where no line tells them.
pub(crate) const NO_FIGURES: Figures = Figures {
    premium: 0,
    loss: 0,
    exercise: 0,
    settlement: 0,
};

// One that does not fit the signed type counts as its largest or its least.
#[tactic(auto, unfolding(sums::specs::Choice::pick))]
fn above(n: u64) -> i64
    ensures { result ≡ above_zero n }
{
    i64::try_from(n).unwrap_or(i64::MAX)
}

#[tactic(auto, unfolding(sums::specs::Choice::pick))]
fn below(n: u64) -> i64
    ensures { result ≡ below_zero n }
{
    match i64::try_from(n) {
        Ok(n) => -n,
        Err(_) => i64::MIN,
    }
}

#[tactic(auto, unfolding(crate::specs::Figures::figure_of, sums::specs::Choice::pick))]
fn figure_of(word: &[u8]) -> Option<i64>
    ensures { result ≡ figure_of word.now }
{
    match word {
        [] => None,
        [b'-', digits @ ..] => Some(below(number_of(digits)?)),
        _ => Some(above(number_of(word)?)),
    }
}

#[tactic(auto, unfolding(crate::specs::Figures::told))]
fn all_of(
    premium: Option<i64>,
    loss: Option<i64>,
    exercise: Option<i64>,
    settlement: Option<i64>,
) -> Line
    ensures { result ≡ told premium loss exercise settlement }
{
    let (Some(premium), Some(loss), Some(exercise), Some(settlement)) = (
        premium, loss, exercise, settlement,
    ) else {
        return Line::Bad;
    };
    Line::Told(Figures {
        premium,
        loss,
        exercise,
        settlement,
    })
}

// The last two words go up to the end: a space in the second leaves it no figure.
fn of_four(premium: &[u8], loss: &[u8], words: &[u8]) -> Line
    ensures { result ≡ figures_behind (premium.now ∷ loss.now ∷ words_of words.now) }
{
    let third = up_to(words, b' ');
    if third == words.len() {
        return Line::Bad;
    }
    let last = third + 1;
    all_of(
        figure_of(premium),
        figure_of(loss),
        figure_of(&words[..third]),
        figure_of(&words[last..]),
    )
}

pub(crate) fn of_words(words: &[u8]) -> Line
    ensures { result ≡ figures_behind (words_of words.now) }
{
    let first = up_to(words, b' ');
    if first == words.len() {
        return Line::Bad;
    }
    let from = first + 1;
    let behind = &words[from..];
    let second = up_to(behind, b' ');
    if second == behind.len() {
        return all_of(
            figure_of(&words[..first]),
            figure_of(behind),
            Some(0),
            Some(0),
        );
    }
    let more = second + 1;
    of_four(&words[..first], &behind[..second], &behind[more..])
}
