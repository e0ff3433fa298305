// What document 01's rules for one record speak of: the change that it makes, and what its verdict needs; `steps` decides.
#![tactic(auto)]

ghost use Rattle.std.specs.Prelude.{◌≡◌};
ghost use Rattle.rules.specs.Numbered.{naming};

use dayfile::Record;
use rows::Row;

pub mod kinds;

// What a record does: nothing but a refusal, one row put anew, or one row opened.
#[derive(Clone, Copy)]
pub enum Change {
    Refuse(u8),
    Put(Row),
    Open(Row),
}

// A record with its account told otherwise: by the place of its row (K11).
pub fn naming(account: u16, r: Record) -> Record
    ensures { result ≡ naming account r }
{
    Record { account, ..r }
}

// What a record's verdict needs beside the row named: its mode, and what the other rows show.
#[derive(Clone, Copy)]
pub struct Beside {
    pub mode: bool,
    pub below: bool,
    pub passes: bool,
    pub client: bool,
}
