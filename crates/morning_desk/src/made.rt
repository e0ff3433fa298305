// Records as values. What a record doesn't name is 0.
use dayfile::{Kinds, Record};

// The second mark byte of a record that names cash alone, and of one that names the margin.
const CASH: u8 = 1;

const MARGIN: u8 = 32;

fn record(serial: u16, code: u8, named: u8, account: u16, cash: u64, margin: u64) -> Record {
    Record {
        serial,
        code,
        named,
        account,
        kinds: Kinds {
            cash,
            deposits: 0,
            guarantees: 0,
            securities: 0,
        },
        pledged: 0,
        margin,
    }
}

// Codes 1, 2 and 3: a TM, a client of the account named, a CP.
pub fn opening(serial: u16, code: u8, account: u16) -> Record {
    record(serial, code, 0, account, 0, 0)
}

// Codes 4 to 7 with cash: receive, hand back, allocate, release.
pub fn cash(serial: u16, code: u8, account: u16, paise: u64) -> Record {
    record(serial, code, CASH, account, paise, 0)
}

// Code 10.
pub fn margin(serial: u16, account: u16, paise: u64) -> Record {
    record(serial, 10, MARGIN, account, 0, paise)
}
