// A program's own streams: standard input, standard output, and standard error, where failures and help are told. The program is named first, as `day`.
ghost use Rattle.std.specs.Prelude.{true, ◌≡◌, ◌≤◌, ◌<◌, ltb, length, is_some, IfSome};
ghost use Rattle.streams.specs.Words.{same_bytes, help_word, Counted, HelpAsked};

use crate::reasons::{reason, tell_reason};
use crate::words::{is_same, too_many};
use crate::{Moved, read_through, words, write_all, write_through};
use std::io::Error;

// Tells a text on standard error. Where that fails, there is nowhere else to tell it.
pub fn tell(rt: &HostRuntime, text: &[u8]) {
    let _ = rt.stderr().write_all(text);
}

// Shows a text on standard output, whose failure doesn't matter.
pub fn show(rt: &HostRuntime, text: &[u8]) {
    let _ = rt.stdout().write_all(text);
}

// A line on standard error: the program, what it can't do, the system's reason.
fn cannot(rt: &HostRuntime, program: &[u8], what: &[u8], why: Error) {
    tell(rt, program);
    tell(rt, b": cannot ");
    tell(rt, what);
    tell_reason(rt, why);
}

// Reads standard input until the room is full or the input ends. A read that fails is told.
pub fn read_input(rt: &HostRuntime, program: &[u8], room: &mut [u8]) -> Moved
    ensures count_in_bounds { result.count ≤ length room.new }
    ensures count_in_bounds_2 { result.failed ≡ true → result.count < length room.new }
{
    let mut input = rt.stdin();
    let read = read_through(&mut input, room);
    if read.moved.failed {
        cannot(rt, program, b"read standard input", reason(read.why));
    }
    read.moved
}

// Writes a text to standard output. A write that fails is told.
pub fn write_output(rt: &HostRuntime, program: &[u8], text: &[u8]) -> Moved
    ensures count_in_bounds { result.count ≤ length text.now }
    ensures failed_value { result.failed ≡ ltb result.count (length text.now) }
{
    let mut output = rt.stdout();
    let put = write_through(&mut output, text);
    if put.moved.failed {
        cannot(rt, program, b"write standard output", reason(put.why));
    }
    put.moved
}

// Where a word is `--help`, the text goes to standard error: what came of that.
fn help_by(rt: &HostRuntime, word: &[u8], text: &[u8]) -> Option<Moved>
    ensures asked_value { is_some result ≡ same_bytes word.now help_word }
    ensures told_value { IfSome result (λ m. (m.count ≤ length text.now) × (m.failed ≡ ltb m.count (length text.now))) }
{
    if !is_same(word, b"--help") {
        return None;
    }
    let mut errors = rt.stderr();
    Some(write_all(&mut errors, text))
}

// The same for the first word; a program that was asked for help does nothing else.
pub fn help(rt: &HostRuntime, text: &[u8]) -> Option<Moved>
    ensures { HelpAsked (length text.now) result }
{
    let mut word = words::blank();
    let n = words::put_or_none(rt, 1, &mut word);
    help_by(rt, &word[..n], text)
}

// Whether there are more words than a program takes. That is told: a word that nothing reads may be a name that was meant.
pub fn too_many_words(rt: &HostRuntime, program: &[u8], most: usize) -> bool
    ensures { Counted most result }
{
    let many = too_many(words::count(rt), most);
    if many {
        tell(rt, program);
        tell(rt, b": too many words\n");
    }
    many
}
