// Checks a TM's statement on standard input against the book in the file FROM (K13): prints 0 where it is accepted, and otherwise the refusal and where.
#![tactic(auto)]

ghost use Rattle.std.specs.Prelude.{false, ◌≡◌, length};
ghost use Rattle.table.specs.Words.{turned_back};
ghost use Rattle.statement.specs.Statements.{statement_finding};
ghost use Rattle.statements.specs.Printed.{finding_text};

use feed::Table;
use streams::standard::{read_input, write_output};
use streams::{Moved, words};
use text::decimals::number_of;

mod printed;

// The longest statement that can matter, and more.
const ROOM: usize = 65_536;

fn bad_words(rt: &HostRuntime) {
    streams::standard::tell(
        rt,
        b"statements: it takes two words, a TM's number and FROM\n",
    );
}

// The line handed over, whole unless a write failed.
fn tell(rt: &HostRuntime, t: Table, tm: u16, bytes: &[u8]) -> Moved
    ensures { result.failed ≡ false → result.count ≡ length (finding_text (statement_finding (turned_back t) tm bytes.now)) }
{
    let mut line = [0u8; 77];
    let n = printed::put_finding(&mut line, statement::check(t, tm, bytes));
    write_output(rt, b"statements", &line[..n])
}

// What lies past the room can't matter (`statement.Far.no-further`): no more than 11,308 bytes do.
fn run(rt: &HostRuntime, t: Table, tm: u16) {
    let mut room = [0u8; ROOM];
    let read = read_input(rt, b"statements", &mut room);
    if read.failed {
        return;
    }
    tell(rt, t, tm, &room[..read.count]);
}

fn from_book(rt: &HostRuntime, tm: u64) {
    let Ok(tm) = u16::try_from(tm) else {
        bad_words(rt);
        return;
    };
    let from = feed::books::from_word(rt, b"statements", 2);
    if from.failed {
        return;
    }
    run(rt, from.table, tm);
}

fn from_words(rt: &HostRuntime) {
    if !words::is_there(words::count(rt), 2) {
        bad_words(rt);
        return;
    }
    let mut word = words::blank();
    let n = words::put_or_none(rt, 1, &mut word);
    match number_of(&word[..n]) {
        Some(tm) => from_book(rt, tm),
        None => bad_words(rt),
    }
}

fn main(rt: HostRuntime) {
    let help = streams::standard::help(
        &rt,
        b"statements: checks a TM's statement on standard input against the book in the file FROM; prints 0 where it is accepted, and otherwise the refusal, the record at fault, counted from 0, and the account wanted there\nusage: statements TM FROM < STATEMENT\n",
    );
    if help.is_some() {
        return;
    }
    if streams::standard::too_many_words(&rt, b"statements", 2) {
        return;
    }
    from_words(&rt);
}
