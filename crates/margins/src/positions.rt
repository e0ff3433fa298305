// The positions and the figures that the input's lines hold.
ghost use Rattle.std.specs.Prelude.{[], ◌≡◌, ◌+◌, ◌≤◌, length};
ghost use Rattle.margins.specs.Lines.{line_says};
ghost use Rattle.margins.specs.Positions.{held_by, held_in};
ghost use Rattle.margins.specs.Inner.{with_position, with_bad, with_figures, with_line};

use crate::figures::Figures;
use crate::lines::{Line, line_of};
use crate::words::up_to;
use currency::{MOST, Position, Side};

// The first 64 positions, how many there are, the figures that a line tells, and the number of the first line that is none of these.
#[derive(Clone, Copy)]
pub(crate) struct Held {
    pub(crate) positions: [Position; 64],
    pub(crate) number: usize,
    pub(crate) figures: Option<Figures>,
    pub(crate) bad: Option<u64>,
}

#[tactic(auto, unfolding(crate::specs::Positions::first_of, crate::specs::Positions::positions_in, crate::specs::Positions::figures_in, crate::specs::Positions::first_bad, crate::specs::Positions::held_by))]
fn none() -> Held
    ensures { result ≡ held_by [] }
{
    let empty = Position {
        product: 0,
        side: Side::Futures,
        notional: 0,
    };
    Held {
        positions: [empty; 64],
        number: 0,
        figures: None,
        bad: None,
    }
}

#[tactic(auto, unfolding(sums::specs::Choice::pick))]
fn with_position(held: Held, position: Position) -> Held
    requires { held.number ≤ 65_536 }
    ensures { result ≡ with_position held position }
{
    let n = held.number;
    let mut more = held;
    if n < MOST {
        more.positions[n] = position;
        more.number = n + 1;
        return more;
    }
    more.number = n + 1;
    more
}

// The first line that is none counts.
#[tactic(auto, unfolding(sums::specs::Choice::pick))]
fn with_bad(held: Held, number: u64) -> Held
    ensures { result ≡ with_bad held number }
{
    let mut bad = held;
    bad.bad = held.bad.or(Some(number));
    bad
}

// Figures stand there at most once.
#[tactic(auto, unfolding(sums::specs::Choice::pick))]
fn with_figures(held: Held, figures: Figures, number: u64) -> Held
    ensures { result ≡ with_figures held figures number }
{
    if held.figures.is_some() {
        return with_bad(held, number);
    }
    let mut more = held;
    more.figures = Some(figures);
    more
}

fn with_line(held: Held, line: &[u8], number: u64) -> Held
    requires { held.number ≤ 65_536 }
    ensures { result ≡ with_line held (line_says line.now) number }
{
    match line_of(line) {
        Line::Nothing => held,
        Line::Holds(position) => with_position(held, position),
        Line::Told(figures) => with_figures(held, figures, number),
        Line::Bad => with_bad(held, number),
    }
}

pub(crate) fn read(text: &[u8]) -> Held
    requires { length text.now ≤ 65_536 }
    ensures { result ≡ held_in text.now }
{
    let mut held = none();
    let mut at: usize = 0;
    let mut lines: u64 = 0;
    // A `while`: a turn goes on by its line's length.
    while at < text.len() {
        let rest = &text[at..];
        let n = up_to(rest, b'\n');
        lines += 1;
        held = with_line(held, &rest[..n], lines);
        at = at + n + 1;
    }
    held
}
