// The records of a piece of the day file, carried out one after the other.
#![tactic(auto)]

ghost use Rattle.std.specs.Prelude.{true, ◌≡◌, ◌*◌, ◌≤◌, ◌/◌, length};
ghost use Rattle.sums.specs.Choice.{pick};
ghost use Rattle.book.specs.Facts.{Sound};
ghost use Rattle.table.specs.Words.{turned_back};
ghost use Rattle.records.specs.Runs.{ended_with, run_of, ran_of, number_closing, closing_refusal};
ghost use Rattle.records.specs.LineNumbers.{numbers_room, room_for};
ghost use Rattle.records.specs.Inner.{put_numbers_from};
ghost use Rattle.run.specs.Over.{over_ran};

pub use records::Closing;
use records::go;
use steps::Lent;
use steps::entry::{enter, leave};
pub use table::{Marks, Table};

// The table after the records, the place reached, why they stopped, and the two counts.
#[derive(Clone, Copy)]
pub struct Ended {
    pub table: Table,
    pub place: usize,
    pub closing: Closing,
    pub read: u64,
    pub done: u64,
}

// The records of a piece at a sound table.
fn run(t: Table, piece: &[u8], most: u64, room: &mut [u16], numbered: bool) -> Ended
    requires { Sound (turned_back t) × (numbered ≡ true → 5 * most ≤ length room.old) }
    ensures value { result ≡ over_ran (run_of piece.now most (turned_back t) 0 0 0) }
    ensures room_after { room.new ≡ pick numbered (put_numbers_from piece.now most (turned_back t) 0 0 room.old) room.old }
{
    let marks = t.marks;
    let words = t.amounts;
    let was = t.modes;
    let needs = t.needs;
    let numbers = t.numbers;
    let mut l = Lent {
        marks,
        words,
        kept: [0; 256],
        modes: was,
        needs,
        numbers,
        excess: [0; 256],
    };
    let first = enter(&mut l, t.count, t.serial, t.next);
    let went = go(&mut l, &was, first, piece, most, room, numbered);
    let table = leave(&l, &was, went.at);
    Ended {
        table,
        place: went.place,
        closing: went.closing,
        read: went.read,
        done: went.done,
    }
}

fn unsound(t: Table) -> Ended
    ensures { result ≡ over_ran (ended_with Closing.Unsound (turned_back t) 0 0 0) }
{
    let table = table::same(t);
    Ended {
        table,
        place: 0,
        closing: Closing::Unsound,
        read: 0,
        done: 0,
    }
}

// The records of a piece from its start, up to a stated number.
pub fn day(t: Table, piece: &[u8], most: u64) -> Ended
    ensures value { result ≡ over_ran (ran_of (turned_back t) piece.now most) }
    ensures closing_value { number_closing result.closing ≡ closing_refusal (turned_back t) }
{
    if !book::is_sound(t) {
        return unsound(t);
    }
    let mut nowhere = [0u16; 1];
    run(t, piece, most, &mut nowhere, false)
}

// The same, with each record's numbers put into a lent room, as far as there is room for five of each.
pub fn day_with_numbers(t: Table, piece: &[u8], most: u64, room: &mut [u16]) -> Ended
    ensures value { result ≡ over_ran (ran_of (turned_back t) piece.now (room_for most room.old)) }
    ensures room_after { room.new ≡ numbers_room (turned_back t) piece.now most room.old }
    ensures closing_value { number_closing result.closing ≡ closing_refusal (turned_back t) }
{
    if !book::is_sound(t) {
        return unsound(t);
    }
    let fit = room.len() as u64 / 5;
    if most < fit {
        return run(t, piece, most, room, true);
    }
    run(t, piece, fit, room, true)
}
