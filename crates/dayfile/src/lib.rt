// The day file: what stands at a place of a piece, and a record's bytes.
#![tactic(auto)]

pub use rows::{CEILING, Kinds};

mod faults;
pub mod reader;
mod reading;
mod writing;

pub use faults::{fault_of, size};
pub use reading::{found_at, read_at};
pub use writing::write;

// A record. `named` is the second mark byte: the amounts that the record names. One that has been read holds 0 for each other; handed over as values it may not, and then it has fault 6.
#[derive(Clone, Copy)]
pub struct Record {
    pub serial: u16,
    pub code: u8,
    pub named: u8,
    pub account: u16,
    pub kinds: Kinds,
    pub pledged: u64,
    pub margin: u64,
}

// What stands at a place: no bytes, too few for a record, or a record, good or not, with the place after it.
#[derive(Clone, Copy)]
pub enum Found {
    End,
    Cut,
    Whole(Record, usize),
}

// What the reader gives: the end, 2, the record with the place after it, or the first of 4, 5, 6 that applies.
#[derive(Clone, Copy)]
pub enum Read {
    End,
    Cut,
    Good(Record, usize),
    Bad {
        reason: u8,
        serial: u16,
        code: u8,
        account: u16,
        next: usize,
    },
}

// What the writer answers: how many bytes it wrote, or the refusal.
#[derive(Clone, Copy)]
pub enum Wrote {
    Written(usize),
    Refused(u8),
}
