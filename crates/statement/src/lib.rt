// Checking brokers' daily collateral statements (K13).
#![tactic(auto)]

ghost use Rattle.std.specs.Prelude.{◌≡◌};
ghost use Rattle.table.specs.Words.{turned_back};
ghost use Rattle.statement.specs.Statements.{found, statement_finding};

use book::sound::table_sound;
use clients::records_finding;
use lookup::place_among;

mod clients;
mod records;

pub use table::{Marks, Table};

// What a check finds: the refusal or 0, the place of the record at fault among the statement's records, counted from 0, and the number of the account wanted there, 0 where none is.
// No Result: `statement_finding` and docs/API.md say all three fields, with a refusal too.
#[derive(Clone, Copy)]
pub struct Finding {
    pub refusal: u8,
    pub index: usize,
    pub wanted: u16,
}

fn found(refusal: u8, index: usize, wanted: u16) -> Finding
    ensures { result ≡ found refusal index wanted }
{
    Finding {
        refusal,
        index,
        wanted,
    }
}

// A TM's statement held against the book.
pub fn check(t: Table, tm: u16, statement: &[u8]) -> Finding
    ensures { result ≡ statement_finding (turned_back t) tm statement.now }
{
    if !table_sound(&t) {
        return found(1, 0, 0);
    }
    let place = place_among(&t.numbers, t.count, tm);
    if place >= t.count {
        return found(7, 0, 0);
    }
    let i = place as usize;
    if !t.marks.live[i] {
        return found(7, 0, 0);
    }
    if t.marks.sort[i] != 1 {
        return found(8, 0, 0);
    }
    records_finding(&t, place, statement)
}
