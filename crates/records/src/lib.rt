// The records of a piece of the day file, carried out one after the other on a table's words, which are lent.
#![tactic(auto)]

ghost use Rattle.std.specs.Prelude.{true, [], ◌∷◌, ◌≡◌, ◌+◌, ◌*◌, ◌≤◌, length};
ghost use Rattle.sums.specs.Choice.{pick};
ghost use Rattle.steps.specs.Steps.{book_in, Going};
ghost use Rattle.records.specs.Runs.{run_of};
ghost use Rattle.records.specs.Inner.{put_line_numbers, put_numbers_from, ran_in};

use codes::asked::{Head, Headed, head_at};
use steps::{At, Gone, Lent, on, step_read};

// Why the records stopped: at the end, at a cut, at the stated number, or since the book isn't sound.
#[derive(Clone, Copy)]
pub enum Closing {
    End,
    Cut,
    Long,
    Unsound,
}

// What the records came to beside the arrays: where the book stands, the place reached, why they stopped, and the two counts.
#[derive(Clone, Copy)]
pub struct Went {
    pub at: At,
    pub place: usize,
    pub closing: Closing,
    pub read: u64,
    pub done: u64,
}

// Puts the numbers of the record that is number k.
fn put_line_numbers(room: &mut [u16], k: u64, h: Head, gone: Gone)
    requires { 5 * (k + 1) ≤ length room.old }
    ensures { room.new ≡ put_line_numbers room.old k (h.serial ∷ h.code ∷ h.account ∷ gone.refusal ∷ gone.given ∷ []) }
{
    let at = 5 * k as usize;
    room[at] = h.serial;
    room[at + 1] = h.code as u16;
    room[at + 2] = h.account;
    room[at + 3] = gone.refusal as u16;
    room[at + 4] = gone.given;
}

// The records of a piece at a sound table, whose arrays are lent, with their numbers put into the room where that is asked for.
pub fn go(
    l: &mut Lent,
    was: &[bool; 256],
    first: At,
    piece: &[u8],
    most: u64,
    room: &mut [u16],
    numbered: bool,
) -> Went
    requires { Going first was.now l.old × (numbered ≡ true → 5 * most ≤ length room.old) }
    ensures excess_value { ran_in result was.now l.new ≡ run_of piece.now most (book_in first was.now l.old) 0 0 0 }
    ensures going { Going result.at was.now l.new
        × (room.new ≡ pick numbered (put_numbers_from piece.now most (book_in first was.now l.old) 0 0 room.old) room.old) }
{
    let mut at = first;
    let mut place: usize = 0;
    let mut read: u64 = 0;
    let mut done: u64 = 0;
    let closing = loop {
        let found = head_at(piece, place);
        match found {
            Headed::End => {
                break Closing::End;
            }
            Headed::Cut => {
                if most <= read {
                    break Closing::Long;
                }
                break Closing::Cut;
            }
            Headed::Whole(h, next) => {
                if most <= read {
                    break Closing::Long;
                }
                let gone = step_read(l, was, at, piece, place, h);
                if numbered {
                    put_line_numbers(room, read, h, gone);
                }
                at = on(at, gone);
                place = next;
                read += 1;
                done += gone.carried;
            }
        }
    };
    Went {
        at,
        place,
        closing,
        read,
        done,
    }
}
