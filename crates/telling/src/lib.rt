// The records of a piece carried out on a table's words, which are lent, each told by its line, and where lines are explained by how much would have passed.
#![tactic(auto)]

ghost use Rattle.std.specs.Prelude.{◌≡◌, ◌+◌, ◌≤◌, ◌<◌, length};
ghost use Rattle.book.specs.Facts.{Sound};
ghost use Rattle.steps.specs.Steps.{book_in, Going};
ghost use Rattle.records.specs.Runs.{run_of};
ghost use Rattle.records.specs.Inner.{ran_in};
ghost use Rattle.text.specs.Inner.{Puts, Texts};
ghost use Rattle.passing.specs.Most.{most_of};
ghost use Rattle.telling.specs.Told.{told_of};
ghost use Rattle.telling.specs.Explained.{line_told};
ghost use Rattle.telling.specs.Inner.{head_only, line_by, held_to};

use codes::asked::{Head, Headed, head_at};
use dayfile::Record;
use passing::{Largest, most_in};
use records::{Closing, Went};
use rows::Kinds;
use steps::{At, Gone, Lent, on, step_read};
use text::line::put_line;
use text::put_spaced;

// What a line takes at most: seven numbers of up to twenty digits, and the byte behind each.
const LINE: usize = 147;

// What the records came to, and how long their lines are.
#[derive(Clone, Copy)]
pub struct Told {
    pub went: Went,
    pub text: usize,
}

// `most` looks at no amount of a record, nor at its serial.
fn head_only(h: Head) -> Record
    ensures { result ≡ head_only h }
{
    Record {
        serial: h.serial,
        code: h.code,
        named: h.named,
        account: h.account,
        kinds: Kinds {
            cash: 0,
            deposits: 0,
            guarantees: 0,
            securities: 0,
        },
        pledged: 0,
        margin: 0,
    }
}

// How much would have passed at the book that the arrays are; its modes are those that it was handed over with while no record was carried out.
fn most_at(l: &Lent, was: &[bool; 256], at: At, h: Head) -> Largest
    requires { Sound (book_in at was.now l.now) }
    ensures { result ≡ most_of (book_in at was.now l.now) (head_only h) }
{
    let modes = if at.waiting { was } else { &l.modes };
    most_in(
        &l.marks,
        &l.words,
        modes,
        &l.needs,
        &l.numbers,
        at.count,
        head_only(h),
    )
}

// Puts the line of a record that came to so much, and gives the place after it. A refusal moves the serial alone, so that the book after it tells how much would have passed before.
fn put_told(
    l: &Lent,
    was: &[bool; 256],
    at: At,
    h: Head,
    gone: Gone,
    explained: bool,
    words: &[u64; 1000],
    text: &mut [u8],
    put: usize,
) -> usize
    requires { Sound (book_in at was.now l.now) × Texts words.now × (put + 147 ≤ length text.old) }
    ensures { Puts text.old put (line_by explained (book_in at was.now l.now) h gone) text.new result }
{
    let code = h.code as u16;
    let refusal = gone.refusal as u16;
    if !explained | (gone.refusal == 0) | (u8::count_ones(h.named) != 1) {
        return put_line(
            words, text, put, h.serial, code, h.account, refusal, gone.given,
        );
    }
    let most = most_at(l, was, at, h);
    let seven = [
        h.serial as u64,
        code as u64,
        h.account as u64,
        refusal as u64,
        gone.given as u64,
        most.refusal as u64,
        most.amount,
    ];
    put_spaced(text, put, &seven)
}

// The records of a piece at a sound table, whose arrays are lent, with their lines put from the room's start, up to the stated number and as long as the room has space for one more line.
pub fn tell(
    l: &mut Lent,
    was: &[bool; 256],
    first: At,
    piece: &[u8],
    most: u64,
    explained: bool,
    words: &[u64; 1000],
    text: &mut [u8],
) -> Told
    requires { Going first was.now l.old × Texts words.now × (147 ≤ length text.old) }
    ensures excess_value { ran_in result.went was.now l.new
        ≡ run_of piece.now (held_to result.went.closing result.went.read most) (book_in first was.now l.old) 0 0 0 }
    ensures going { Going result.went.at was.now l.new }
    ensures puts { Puts text.old 0 (told_of (line_told explained) piece.now (held_to result.went.closing result.went.read most)
        (book_in first was.now l.old) 0) text.new result.text }
    ensures read_le_most { (result.went.read ≤ most) × (result.went.closing ≡ Closing.Long → 0 < most → 0 < result.went.read) }
{
    let mut at = first;
    let mut place: usize = 0;
    let mut read: u64 = 0;
    let mut done: u64 = 0;
    let mut put: usize = 0;
    let last = text.len() - LINE;
    let closing = loop {
        let found = head_at(piece, place);
        match found {
            Headed::End => {
                break Closing::End;
            }
            Headed::Cut => {
                if most <= read {
                    break Closing::Long;
                }
                break Closing::Cut;
            }
            Headed::Whole(h, next) => {
                if (most <= read) | (last < put) {
                    break Closing::Long;
                }
                let gone = step_read(l, was, at, piece, place, h);
                at = on(at, gone);
                put = put_told(l, was, at, h, gone, explained, words, text, put);
                place = next;
                read += 1;
                done += gone.carried;
            }
        }
    };
    let went = Went {
        at,
        place,
        closing,
        read,
        done,
    };
    Told { went, text: put }
}
