// One line of the input: `PRODUCT SIDE NOTIONAL`, `figures ..`, or nothing to read.
ghost use Rattle.std.specs.Prelude.{◌∷◌, ◌≡◌};
ghost use Rattle.margins.specs.Words.{words_of};
ghost use Rattle.margins.specs.Lines.{holding, position_of, of_words, line_says};

use crate::figures;
use crate::figures::Figures;
use crate::products::{names_product, product_of};
use crate::sides::side_of;
use crate::words::up_to;
use currency::{Position, Side};
use streams::words::is_same;
use text::decimals::number_of;

// What a line says. An empty one, and one that begins with `#`, says nothing.
#[derive(Clone, Copy)]
pub(crate) enum Line {
    Nothing,
    Holds(Position),
    Told(Figures),
    Bad,
}

#[tactic(auto, unfolding(crate::specs::Lines::holding))]
fn held(product: u8, side: Option<Side>, notional: Option<u64>) -> Line
    ensures { result ≡ holding product side notional }
{
    let (Some(side), Some(notional)) = (side, notional) else {
        return Line::Bad;
    };
    Line::Holds(Position {
        product,
        side,
        notional,
    })
}

// The words behind the product; the notional goes up to the end, where a space leaves it no number.
fn position(product: &[u8], words: &[u8]) -> Line
    ensures { result ≡ position_of (product.now ∷ words_of words.now) }
{
    let second = up_to(words, b' ');
    if second == words.len() {
        return Line::Bad;
    }
    if !names_product(product) {
        return Line::Bad;
    }
    let last = second + 1;
    held(
        product_of(product),
        side_of(&words[..second]),
        number_of(&words[last..]),
    )
}

fn of_words(line: &[u8]) -> Line
    ensures { result ≡ of_words (words_of line.now) }
{
    let first = up_to(line, b' ');
    if first == line.len() {
        return Line::Bad;
    }
    let from = first + 1;
    if is_same(&line[..first], b"figures") {
        return figures::of_words(&line[from..]);
    }
    position(&line[..first], &line[from..])
}

pub(crate) fn line_of(line: &[u8]) -> Line
    ensures { result ≡ line_says line.now }
{
    if line.len() == 0 {
        return Line::Nothing;
    }
    if line[0] == b'#' {
        return Line::Nothing;
    }
    of_words(line)
}
