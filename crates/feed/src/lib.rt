// A day file from standard input, carried out in turns.
#![tactic(auto)]

ghost use Rattle.std.specs.Prelude.{true, ◌≡◌};
ghost use Rattle.table.specs.Words.{turned_back};
ghost use Rattle.book.specs.Facts.{Sound};
ghost use Rattle.records.specs.Runs.{ended_with};
ghost use Rattle.feed.specs.Fed.{no_day, day_of, Came, CameExplained};
ghost use Rattle.feed.specs.Inner.{told_text, CameWith};

use pieces::SPACE;
pub use records::Closing;
use steps::Lent;
use steps::entry::{enter, leave};
pub use streams::Moved;
pub use table::{Marks, Table};
use turn::stops;

pub mod books;
mod turn;

// "at a million records"
pub const MILLION: u64 = 1_000_000;

// The lines of a turn stand here.
const ROOM: usize = 16_384;

// What a whole day file came to, with how many bytes of lines were printed, or that a read or a write failed.
#[derive(Clone, Copy)]
pub struct Day {
    pub table: Table,
    pub closing: Closing,
    pub read: u64,
    pub done: u64,
    pub printed: usize,
    pub failed: bool,
}

#[tactic(auto, unfolding(crate::specs::Fed::no_day))]
fn no_day() -> Day
    ensures { result ≡ no_day }
{
    let table = book::fresh();
    Day {
        table,
        closing: Closing::End,
        read: 0,
        done: 0,
        printed: 0,
        failed: true,
    }
}

fn unsound(t: Table) -> Day
    ensures { result ≡ day_of 0 (ended_with Closing.Unsound (turned_back t) 0 0 0) }
{
    let table = table::same(t);
    Day {
        table,
        closing: Closing::Unsound,
        read: 0,
        done: 0,
        printed: 0,
        failed: false,
    }
}

// The turns over a sound book. The end of a piece is no cut: the rest of it stays, and the next piece is read behind it. Only a piece that doesn't fill the
// space is the last one.
fn in_turns(rt: &HostRuntime, program: &[u8], printing: bool, explained: bool, t: Table) -> Day
    requires { Sound (turned_back t) }
    ensures { CameWith (told_text printing explained (turned_back t)) (turned_back t) result }
{
    let mut space = pieces::blank();
    let mut text = [0u8; ROOM];
    let mut words = [0u64; 1000];
    text::texts::fill(&mut words);
    let marks = t.marks;
    let amounts = t.amounts;
    let was = t.modes;
    let needs = t.needs;
    let numbers = t.numbers;
    let mut l = Lent {
        marks,
        words: amounts,
        kept: [0; 256],
        modes: was,
        needs,
        numbers,
        excess: [0; 256],
    };
    let mut at = enter(&mut l, t.count, t.serial, t.next);
    let mut rest: usize = 0;
    let mut read: u64 = 0;
    let mut done: u64 = 0;
    let mut printed: usize = 0;
    let mut ended = false;
    let closing = loop {
        let got = pieces::refill_input(rt, program, &mut space, rest, ended);
        let held = rest + got.count;
        let told = turn::carry_on(
            &mut l,
            &was,
            at,
            &space[..held],
            MILLION - read,
            printing,
            explained,
            &words,
            &mut text,
        );
        let went = told.went;
        let word = went.closing;
        let stands = went.at;
        let n = told.text;
        let put = turn::hand_over(rt, program, printing, &text, n);
        if got.failed | put.failed {
            return no_day();
        }
        at = stands;
        read += went.read;
        done += went.done;
        printed += put.count;
        ended = held < SPACE;
        if stops(word, ended, MILLION <= read) {
            break word;
        }
        rest = pieces::to_front(&mut space, went.place, held);
    };
    let table = leave(&l, &was, at);
    Day {
        table,
        closing,
        read,
        done,
        printed,
        failed: false,
    }
}

// The day file on standard input, carried out over a book, with a line for each record on standard output where that is asked for. Of a book that isn't sound
// nothing is read. A failure is told on standard error, for the program named.
pub fn whole_day(rt: &HostRuntime, program: &[u8], printing: bool, t: Table) -> Day
    ensures { Came printing (turned_back t) result }
{
    if !book::is_sound(t) {
        return unsound(t);
    }
    in_turns(rt, program, printing, false, t)
}

// The same, with how much would have passed behind the line of each refused record with one amount.
pub fn explained_day(rt: &HostRuntime, program: &[u8], t: Table) -> Day
    ensures { CameExplained (turned_back t) result }
{
    if !book::is_sound(t) {
        return unsound(t);
    }
    in_turns(rt, program, true, true, t)
}
