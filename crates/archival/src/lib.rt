// The retired rows of a table moved to an archive that is lent (K11).
#![tactic(auto)]

ghost use Rattle.std.specs.Prelude.{◌≡◌};
ghost use Rattle.table.specs.Words.{turned, turned_back};
ghost use Rattle.book.specs.Facts.{Sound};
ghost use Rattle.gaps.specs.Gaps.{archived};
ghost use Rattle.archival.specs.Archive.{archived_of, archive_room};

use archiving::{put_archived, retired};
use gaps::close_gaps;
pub use table::{Marks, Table};

// The refusal number or 0, how many rows moved, and the table after it.
// No Result: the table is there in either case.
#[derive(Clone, Copy)]
pub struct Archived {
    pub refusal: u8,
    pub moved: u16,
    pub table: Table,
}

// Nothing moved, and the table stays.
fn refused(t: Table, refusal: u8) -> Archived
    ensures { result ≡ record { refusal = refusal; moved = 0; table = turned (turned_back t) } }
{
    let table = table::same(t);
    Archived {
        refusal,
        moved: 0,
        table,
    }
}

// The table without its retired rows.
fn without_retired(t: Table) -> Table
    requires { Sound (turned_back t) }
    ensures { result ≡ turned (archived (turned_back t)) }
{
    let mut table = t;
    close_gaps(&mut table);
    table
}

// All retired rows go to the room, three numbers each, and the gaps that they leave are closed. The room is filled first: a
// row that moves may take the place of an archived TM, whose number an entry names.
pub fn archive(t: Table, room: &mut [u16]) -> Archived
    ensures value { result ≡ archived_of (turned_back t) room.old }
    ensures room_after { room.new ≡ archive_room (turned_back t) room.old }
{
    if !book::is_sound(t) {
        return refused(t, 1);
    }
    let moved = retired(&t);
    if room.len() < 3 * moved as usize {
        return refused(t, 23);
    }
    put_archived(&t, room);
    let table = without_retired(t);
    Archived {
        refusal: 0,
        moved,
        table,
    }
}
