// A day file, or its text, that comes in pieces and is turned into the other form.
#![tactic(auto)]

ghost use Rattle.std.specs.Prelude.{true, false, ◌≡◌, length};
ghost use Rattle.sums.specs.Choice.{pick};
ghost use Rattle.sums.specs.Room.{at_start};
ghost use Rattle.words.specs.Texts.{wrong};
ghost use Rattle.words.specs.Pieces.{told_of};
ghost use Rattle.wording.specs.Wording.{no_words, worded_of, day_within, in_text, Came};
ghost use Rattle.wording.specs.Inner.{turned_as, taking};

use pieces::{SPACE, Source, refill, to_front};
use streams::files::open_named;
use streams::standard::{tell, write_output};
use words::{Taken, bytes_of_text, text_of_bytes};

// What is put of a piece stands here.
const ROOM: usize = 32_768;

// More than any file takes: so the loop ends, and no count wraps.
const TURNS: u64 = 281_474_976_710_656;

// What a file came to: the number of the first line that says nothing and its fault, or 0 and 0; how many bytes were printed; whether a read or a write failed.
// No Result: what was printed is counted before a failure and a fault too.
#[derive(Clone, Copy)]
pub struct Worded {
    pub failed: bool,
    pub line: u64,
    pub fault: u8,
    pub printed: u64,
}

#[tactic(auto, unfolding(crate::specs::Wording::no_words))]
fn no_words() -> Worded
    ensures { result ≡ no_words }
{
    Worded {
        failed: true,
        line: 0,
        fault: 0,
        printed: 0,
    }
}

// A line that says nothing. A text is printed only after it was judged: it was changed in between, and that is told.
#[tactic(auto, unfolding(crate::specs::Wording::worded_of, sums::specs::Choice::pick))]
fn bad_line(rt: &HostRuntime, program: &[u8], printing: bool, line: u64, fault: u8) -> Worded
    ensures { result ≡ worded_of printing (wrong line fault) }
{
    if printing {
        tell(rt, program);
        tell(rt, b": the text was changed while it was read\n");
        return no_words();
    }
    Worded {
        failed: false,
        line,
        fault,
        printed: 0,
    }
}

#[tactic(auto, unfolding(crate::specs::Inner::taking, sums::specs::Choice::pick))]
fn take_in(spelling: bool, held: &[u8], last: bool, running: u16, room: &mut [u8]) -> Taken
    ensures value { result ≡ told_of (taking spelling last (length room.old) running held.now) }
    ensures room_after { room.new ≡ at_start (taking spelling last (length room.old) running held.now).bytes room.old }
{
    if spelling {
        return text_of_bytes(held, last, running, room);
    }
    bytes_of_text(held, last, running, room)
}

#[tactic(auto, unfolding(sums::specs::Choice::pick))]
fn shown(printing: bool, count: usize) -> usize
    ensures { result ≡ pick printing count 0 }
{
    if printing {
        return count;
    }
    0
}

// A piece that doesn't fill the space is the file's last. What isn't taken of a piece stays, and the next is read behind it; a line that fills the whole space is too long.
fn in_pieces(
    rt: &HostRuntime,
    program: &[u8],
    from: Source,
    spelling: bool,
    printing: bool,
    first: u16,
) -> Worded
    ensures { Came (turned_as spelling first) printing result }
{
    let mut source = from;
    let mut space = pieces::blank();
    let mut room = [0u8; ROOM];
    let mut rest: usize = 0;
    let mut running = first;
    let mut lines: u64 = 0;
    let mut printed: u64 = 0;
    let mut ended = false;
    for turns in 0..TURNS {
        let got = refill(rt, program, &mut source, &mut space, rest, ended);
        if got.failed {
            return no_words();
        }
        let held = rest + got.count;
        ended = held < SPACE;
        let taken = take_in(spelling, &space[..held], ended, running, &mut room);
        let n = shown(printing, taken.count);
        let put = write_output(rt, program, &room[..n]);
        if put.failed {
            return no_words();
        }
        lines += taken.lines as u64;
        printed += put.count as u64;
        running = taken.running;
        if taken.fault != 0 {
            return bad_line(rt, program, printing, lines + 1, taken.fault);
        }
        if ended & (taken.place == held) {
            return Worded {
                failed: false,
                line: 0,
                fault: 0,
                printed,
            };
        }
        if !spelling & !ended & (taken.place == 0) {
            return bad_line(rt, program, printing, lines + 1, 34);
        }
        rest = to_front(&mut space, taken.place, held);
    }
    no_words()
}

// The day file on standard input, its text on standard output. The running serial begins with this one. A failure is told on standard error, for the program named.
pub fn in_words(rt: &HostRuntime, program: &[u8], running: u16) -> Worded
    ensures { Came (in_text running) true result }
{
    in_pieces(rt, program, Source::Input, true, true, running)
}

// The text in the file that a word names.
fn in_file(rt: &HostRuntime, program: &[u8], word: usize, printing: bool, running: u16) -> Worded
    ensures { Came (day_within running) printing result }
{
    match open_named(rt, program, b"read the text", word).file {
        Ok(file) => {
            let source = Source::Named(word, file);
            in_pieces(rt, program, source, false, printing, running)
        }
        Err(_) => no_words(),
    }
}

// Whether every line of the text in the file that a word names says something, or which is the first that doesn't. Nothing is printed.
pub fn judged(rt: &HostRuntime, program: &[u8], word: usize, running: u16) -> Worded
    ensures { Came (day_within running) false result }
{
    in_file(rt, program, word, false, running)
}

// The day file that this text says, on standard output.
pub fn as_bytes(rt: &HostRuntime, program: &[u8], word: usize, running: u16) -> Worded
    ensures { Came (day_within running) true result }
{
    in_file(rt, program, word, true, running)
}
