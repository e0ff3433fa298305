// One turn of the day file: the records of the bytes held, and where that is asked for their lines, handed over for printing.
ghost use Rattle.std.specs.Prelude.{false, ◌≡◌, ◌+◌, ◌≤◌, ◌<◌, min, ltb, length};
ghost use Rattle.sums.specs.Choice.{pick};
ghost use Rattle.steps.specs.Steps.{book_in, Going};
ghost use Rattle.records.specs.Runs.{run_of};
ghost use Rattle.records.specs.Inner.{ran_in};
ghost use Rattle.text.specs.Inner.{Puts, Texts};
ghost use Rattle.telling.specs.Told.{told_of};
ghost use Rattle.telling.specs.Explained.{line_told};
ghost use Rattle.feed.specs.Inner.{stops_at, turn_takes, turn_text};

use records::{Closing, go};
use steps::{At, Lent};
use streams::Moved;
use streams::standard::write_output;
use telling::{Told, tell};

// Whether the turn is the last: it took all of a piece that is shorter than its space, or the million is full.
pub(crate) fn stops(word: Closing, short: bool, full: bool) -> bool
    ensures { result ≡ stops_at word short full }
{
    match word {
        Closing::End => short,
        Closing::Cut => short,
        Closing::Long => full,
        Closing::Unsound => true,
    }
}

// A turn ends where its lines fill the room.
pub(crate) fn carry_on(
    l: &mut Lent,
    was: &[bool; 256],
    at: At,
    held: &[u8],
    left: u64,
    printing: bool,
    explained: bool,
    words: &[u64; 1000],
    text: &mut [u8],
) -> Told
    requires { Going at was.now l.old × Texts words.now × (147 ≤ length text.old) × (left ≤ 1_000_000) }
    ensures excess_value { ran_in result.went was.now l.new
        ≡ run_of held.now (min left (turn_takes result.went.closing result.went.read)) (book_in at was.now l.old) 0 0 0 }
    ensures going { Going result.went.at was.now l.new }
    ensures puts { Puts text.old 0 (turn_text printing explained held.now (min left (turn_takes result.went.closing result.went.read))
        (book_in at was.now l.old)) text.new result.text }
{
    if printing {
        return tell(l, was, at, held, left, explained, words, text);
    }
    let mut none = [0u16; 1];
    let went = go(l, was, at, held, left, &mut none, false);
    Told { went, text: 0 }
}

// Prints a turn's text from the room's start. Nothing else of this crate prints; where nothing is to be printed there is no text.
pub(crate) fn hand_over(
    rt: &HostRuntime,
    program: &[u8],
    printing: bool,
    text: &[u8],
    n: usize,
) -> Moved
    requires { (n ≤ length text.now) × (printing ≡ false → n ≡ 0) }
    ensures { (result.count ≤ n) × (result.failed ≡ ltb result.count n) }
{
    if !printing {
        return Moved {
            failed: false,
            count: 0,
        };
    }
    write_output(rt, program, &text[..n])
}
