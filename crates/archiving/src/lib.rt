// The retired rows put into a lent archive (K11).
#![tactic(auto)]

ghost use Rattle.std.specs.Prelude.{[], ◌∷◌, ◌≡◌, ◌+◌, ◌≤◌, ◌<◌, eqb, length, get_or};
ghost use Rattle.sums.specs.Choice.{pick};
ghost use Rattle.sums.specs.Room.{at_start};
ghost use Rattle.table.specs.Words.{turned_back};
ghost use Rattle.text.specs.Inner.{Puts};
ghost use Rattle.archiving.specs.Archiving.{retired_of, archive_of};
ghost use Rattle.archiving.specs.Inner.{entry_of};

use table::Table;

// How many of the rows are retired.
pub fn retired(t: &Table) -> u16
    requires { t.now.count ≤ 256 }
    ensures { result ≡ retired_of (turned_back t.now) }
{
    let n = t.count as usize;
    let mut many: u16 = 0;
    for i in 0..n {
        many += u16::from(!t.marks.live[i]);
    }
    many
}

// The number of a client's TM, and 0 for any other.
fn tm_number(numbers: &[u16; 256], sort: u8, tm: u16) -> u16
    requires { tm < 256 }
    ensures { result ≡ pick (eqb sort 2) (get_or numbers.now tm 0) 0 }
{
    if sort == 2 {
        return numbers[tm as usize];
    }
    0
}

// The place after them.
fn put_three(room: &mut [u16], at: usize, a: u16, b: u8, c: u16) -> usize
    requires { at + 3 ≤ length room.old }
    ensures { Puts room.old at (a ∷ b ∷ c ∷ []) room.new result }
{
    room[at] = a;
    room[at + 1] = b as u16;
    room[at + 2] = c;
    at + 3
}

// Row i goes to the archive at a place where it is retired. The place after it.
fn put_one(t: &Table, i: usize, room: &mut [u16], at: usize) -> usize
    requires { (i < 256) × (get_or t.now.marks.tm i 0 < 256)
        × (at + length (entry_of (turned_back t.now) i) ≤ length room.old) }
    ensures { Puts room.old at (entry_of (turned_back t.now) i) room.new result }
{
    if t.marks.live[i] {
        return at;
    }
    let sort = t.marks.sort[i];
    let its = tm_number(&t.numbers, sort, t.marks.tm[i]);
    put_three(room, at, t.numbers[i], sort, its)
}

// All retired rows, in rising number.
pub fn put_archived(t: &Table, room: &mut [u16])
    requires { (t.now.count ≤ 256) × ((i : _) → i < t.now.count → get_or t.now.marks.tm i 0 < 256)
        × (length (archive_of (turned_back t.now)) ≤ length room.old) }
    ensures { room.new ≡ at_start (archive_of (turned_back t.now)) room.old }
{
    let n = t.count as usize;
    let mut at: usize = 0;
    for i in 0..n {
        at = put_one(t, i, room, at);
    }
}
