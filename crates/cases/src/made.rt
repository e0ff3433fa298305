// Records handed over as values, and the tables that they make. Account 1 is a TM, 2 its client, 3 a CP; all amounts are cash.
use dayfile::Record;
use desk::{Kinds, Table};

pub const CASH: u8 = 1;

const MARGIN: u8 = 32;

// With the table's next serial: x is its cash, or its margin.
fn record(t: Table, code: u8, named: u8, account: u16, x: u64) -> Record {
    let cash = if named == CASH { x } else { 0 };
    let margin = if named == MARGIN { x } else { 0 };
    Record {
        serial: t.serial,
        code,
        named,
        account,
        kinds: Kinds {
            cash,
            deposits: 0,
            guarantees: 0,
            securities: 0,
        },
        pledged: 0,
        margin,
    }
}

fn carried(t: Table, code: u8, named: u8, account: u16, x: u64) -> Table {
    desk::carry_out(t, record(t, code, named, account, x)).table
}

// Received and allocated.
fn given(t: Table, account: u16, x: u64) -> Table {
    let received = carried(t, 4, CASH, account, x);
    carried(received, 6, CASH, account, x)
}

fn margin(t: Table, account: u16, x: u64) -> Table {
    carried(t, 10, MARGIN, account, x)
}

// The CM has 1000, the TM 100, its client 9, the CP 5.
fn start() -> Table {
    let t = carried(book::fresh(), 1, 0, 0, 0);
    let t = carried(t, 2, 0, 1, 0);
    let t = carried(t, 3, 0, 0, 0);
    let t = given(t, 0, 1000);
    let t = given(t, 1, 100);
    let t = given(t, 2, 9);
    given(t, 3, 5)
}

// The client's margin 20, of which its TM is asked 11; the TM's 95, of which the CM is asked 6; the CP's 7, and 2 of it; the CM's 1.
pub fn busy() -> Table {
    let t = margin(start(), 2, 20);
    let t = margin(t, 1, 95);
    let t = margin(t, 3, 7);
    margin(t, 0, 1)
}

// The same with another need kept at a place.
pub fn wrong(place: u8, need: u64) -> Table {
    let mut t = busy();
    let at = usize::from(place);
    t.needs[at] = need;
    t
}
