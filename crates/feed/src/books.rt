// The books that a program's words name: FROM, the one that its day starts from, and TO, where the one after it goes.
ghost use Rattle.std.specs.Prelude.{[], ◌≡◌, length};
ghost use Rattle.sums.specs.Choice.{pick};
ghost use Rattle.numbers.specs.Bytes.{Bytes};
ghost use Rattle.bookfile.specs.Reading.{read_of};
ghost use Rattle.bookfile.specs.Written.{written_of};
ghost use Rattle.streams.specs.Words.{is_there};
ghost use Rattle.feed.specs.Books.{names_file, fresh_from, from_held, FileCame, CameFrom, nowhere, went_to, BookLeft};

use bookfile::SIZE;
use streams::files::{read_named, replace_named};
use streams::standard::tell;
use streams::words::{is_same, is_there};
use streams::{Moved, words};
use table::Table;

// One byte more than a book file has, of the longer version: what lies further on can't matter.
const ROOM: usize = 24_333;

// The book that a day starts from, whether a file was named, and whether that is none or can't be read.
// No Option or Result: a table is there in each case, and `-` and a bad file are told apart (`books.CameFrom`).
#[derive(Clone, Copy)]
pub struct From {
    pub named: bool,
    pub failed: bool,
    pub table: Table,
}

// Whether a file was named for the book after a day, whether it couldn't be written, and how many bytes went there.
// No Result: `went_to` and `nowhere` say all three fields, 0 beside a failure.
#[derive(Clone, Copy)]
pub struct To {
    pub named: bool,
    pub failed: bool,
    pub count: usize,
}

#[tactic(auto, unfolding(crate::specs::Books::fresh_from))]
fn fresh() -> From
    ensures { result ≡ fresh_from }
{
    let table = book::fresh();
    From {
        named: false,
        failed: false,
        table,
    }
}

fn none() -> From
    ensures { result ≡ from_held (read_of []) }
{
    let table = book::fresh();
    From {
        named: true,
        failed: true,
        table,
    }
}

fn tell_none(rt: &HostRuntime, program: &[u8], name: &[u8]) {
    tell(rt, program);
    tell(rt, b": cannot read the book file: ");
    tell(rt, name);
    tell(rt, b": it is no book\n");
}

// The book that a file's bytes are, or that they are none.
#[tactic(auto, unfolding(crate::specs::Books::from_held))]
fn held(rt: &HostRuntime, program: &[u8], name: &[u8], file: &[u8]) -> From
    ensures value { result ≡ from_held (read_of file.now) }
    ensures bytes { Bytes file.now }
{
    let held = bookfile::read(file);
    let failed = !held.is_book;
    if failed {
        tell_none(rt, program, name);
    }
    let table = held.table;
    From {
        named: true,
        failed,
        table,
    }
}

fn from_file(rt: &HostRuntime, program: &[u8], name: &[u8], word: usize) -> From
    ensures { FileCame result }
{
    let mut bytes = [0u8; ROOM];
    let read = read_named(rt, program, b"read the book file", word, &mut bytes);
    if read.failed {
        return none();
    }
    let n = read.count;
    held(rt, program, name, &bytes[..n])
}

// Whether a word names a file: there is such a word, and it isn't `-`.
#[tactic(auto, unfolding(crate::specs::Books::names_file))]
fn names_file(count: usize, word: usize, name: &[u8]) -> bool
    ensures { result ≡ names_file count word name.now }
{
    is_there(count, word) & !is_same(name, b"-")
}

fn from_named(rt: &HostRuntime, program: &[u8], count: usize, word: usize, name: &[u8]) -> From
    ensures named_value { result.named ≡ names_file count word name.now }
    ensures came_from { CameFrom word result }
{
    if !names_file(count, word, name) {
        return fresh();
    }
    from_file(rt, program, name, word)
}

// The book in the file that a word names; the fresh book where there is no such word, or where it is `-`. A file that can't be read, or is no book, is told on standard error.
pub fn from_word(rt: &HostRuntime, program: &[u8], word: usize) -> From
    ensures { CameFrom word result }
{
    let mut name = words::blank();
    let n = words::put_or_none(rt, word, &mut name);
    from_named(rt, program, words::count(rt), word, &name[..n])
}

// Writes a book's written form into the file that a word names.
fn put_book(rt: &HostRuntime, program: &[u8], word: usize, t: Table) -> Moved
    ensures { result.count ≡ pick result.failed 0 (length (written_of t)) }
{
    let mut bytes = [0u8; SIZE];
    bookfile::write(t, &mut bytes);
    replace_named(rt, program, b"write the book file", word, &bytes)
}

#[tactic(auto, unfolding(crate::specs::Books::went_to, crate::specs::Books::nowhere, sums::specs::Choice::pick))]
fn to_named(rt: &HostRuntime, program: &[u8], count: usize, word: usize, t: Table) -> To
    ensures named_value { result.named ≡ is_there count word }
    ensures value { result ≡ pick result.named (went_to result.failed t) nowhere }
{
    if !is_there(count, word) {
        return To {
            named: false,
            failed: false,
            count: 0,
        };
    }
    let put = put_book(rt, program, word, t);
    To {
        named: true,
        failed: put.failed,
        count: put.count,
    }
}

// Writes a book into the file that a word names: whole beside its place, and then there. A failure is told on standard error. Where there is no such word, nothing is to be done.
pub fn to_word(rt: &HostRuntime, program: &[u8], word: usize, t: Table) -> To
    ensures { BookLeft word t result }
{
    to_named(rt, program, words::count(rt), word, t)
}
