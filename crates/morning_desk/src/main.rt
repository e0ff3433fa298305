// A desk's morning, call by call: the book of 004 Annexure 4 made of records handed over as values, a record out of bytes, a piece of the day file, what the
// book is asked then, and a close-out. TM-1 is account 1, its clients A and B are 2 and 3, a CP is 4. Amounts are paise.
#![tactic(auto)]

use desk::{Record, Table};

mod made;
mod shown;

// Hands a record over and shows the answer.
fn hand(rt: &HostRuntime, t: Table, record: Record) -> Table {
    let done = desk::carry_out(t, record);
    shown::answer(rt, done.answer);
    shown::say(rt, b"\n");
    done.table
}

fn open(rt: &HostRuntime, what: &[u8], t: Table, code: u8, account: u16) -> Table {
    shown::say(rt, what);
    hand(rt, t, made::opening(t.serial, code, account))
}

fn cash(rt: &HostRuntime, what: &[u8], t: Table, code: u8, account: u16, paise: u64) -> Table {
    shown::told(rt, what, paise);
    hand(rt, t, made::cash(t.serial, code, account, paise))
}

fn margin(rt: &HostRuntime, t: Table, account: u16, paise: u64) -> Table {
    shown::told(rt, b"margin", paise);
    hand(rt, t, made::margin(t.serial, account, paise))
}

fn place(rt: &HostRuntime, t: Table, account: u16, paise: u64) -> Table {
    let received = cash(rt, b"receive", t, 4, account, paise);
    cash(rt, b"allocate", received, 6, account, paise)
}

fn opened(rt: &HostRuntime) -> Table {
    let t = open(rt, b"open TM-1", book::fresh(), 1, 0);
    let t = open(rt, b"open A", t, 2, 1);
    let t = open(rt, b"open B", t, 2, 1);
    open(rt, b"open a CP", t, 3, 0)
}

fn placed(rt: &HostRuntime) -> Table {
    let t = place(rt, opened(rt), 0, 100000);
    let t = place(rt, t, 1, 50000);
    let t = place(rt, t, 2, 30000);
    let t = place(rt, t, 3, 30000);
    place(rt, t, 4, 10000)
}

// A record written as bytes, and carried out from them.
fn from_bytes(rt: &HostRuntime, t: Table, record: Record) -> Table {
    let mut bytes = [0u8; 14];
    let wrote = dayfile::write(record, &mut bytes);
    shown::wrote(rt, wrote);
    let next = desk::carry_out_next(t, &bytes, 0);
    shown::say(rt, b"out of bytes");
    shown::answer(rt, next.answer);
    shown::told(rt, b", then place", next.place as u64);
    shown::say(rt, b"\n");
    next.table
}

// Two margins of B as they stand in a day file: P4's, and one that the CM could not answer for (13).
fn piece(rt: &HostRuntime, t: Table) -> Table {
    let bytes =
        b"\x0A\x20\0\x11\0\x03\0\0\0\0\0\x01\x5F\x90\x0A\x20\0\x12\0\x03\0\0\0\0\0\x02\x49\xF1";
    let ended = run::day(t, bytes, 1000);
    shown::told(rt, b"a piece: place", ended.place as u64);
    shown::say(rt, b"; ");
    report::closing(rt, b"morning_desk", ended.closing, ended.read, ended.done);
    ended.table
}

fn asked(rt: &HostRuntime, t: Table) {
    shown::figures(rt, 0, book::standing(t, 0));
    shown::figures(rt, 1, book::standing(t, 1));
    shown::figures(rt, 3, book::standing(t, 3));
    shown::figures(rt, 5, book::standing(t, 5));
    let mut needs = [0u64; 5];
    shown::told(rt, b"needs: refusal", u64::from(book::needs(t, &mut needs)));
    shown::told(rt, b"; the CM", needs[0]);
    shown::told(rt, b", TM-1", needs[1]);
    shown::told(rt, b", A", needs[2]);
    shown::told(rt, b", B", needs[3]);
    shown::told(rt, b", the CP", needs[4]);
    shown::say(rt, b"\n");
}

// P8: A and B lose 1200 rupees each.
fn closed(rt: &HostRuntime, t: Table) {
    let losses = [0u64, 0, 120000, 120000, 0];
    let mut room = [0u64; 20];
    let closed = closeout::close_out(t, &losses, &mut room);
    shown::paid(rt, 2, room[8], room[9], room[10], room[11]);
    shown::paid(rt, 3, room[12], room[13], room[14], room[15]);
    shown::told(rt, b"close-out: refusal", u64::from(closed.refusal));
    shown::told(rt, b", total uncovered", closed.total);
    shown::say(rt, b"\n");
}

fn main(rt: HostRuntime) {
    let t = margin(&rt, placed(&rt), 3, 10000);
    let t = margin(&rt, t, 2, 60000);
    let t = from_bytes(&rt, t, made::margin(t.serial, 3, 60000));
    let t = piece(&rt, t);
    let t = cash(&rt, b"release", t, 7, 1, 1);
    asked(&rt, t);
    closed(&rt, t);
}
