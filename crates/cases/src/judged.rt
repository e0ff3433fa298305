// Records judged by themselves, and lengths.
use crate::shown;
use dayfile::{Kinds, Record};

// The fault of a record whose amount of this bit is 1 and whose others are 0.
fn fault(rt: &HostRuntime, code: u8, named: u8, bit: u8) {
    let r = Record {
        serial: 7,
        code,
        named,
        account: 9,
        kinds: Kinds {
            cash: u64::from(bit == 0),
            deposits: u64::from(bit == 1),
            guarantees: u64::from(bit == 2),
            securities: u64::from(bit == 3),
        },
        pledged: u64::from(bit == 4),
        margin: u64::from(bit == 5),
    };
    shown::number(rt, u64::from(dayfile::fault_of(r)));
}

// Retiring names no amount.
fn unnamed(rt: &HostRuntime) {
    shown::say(rt, b"retiring, an unnamed 1 of each kind:");
    fault(rt, 11, 0, 0);
    fault(rt, 11, 0, 1);
    fault(rt, 11, 0, 2);
    fault(rt, 11, 0, 3);
    fault(rt, 11, 0, 4);
    fault(rt, 11, 0, 5);
    shown::end_line(rt);
}

// An unknown code, no amount named, another than the one held, and a good record.
fn in_order(rt: &HostRuntime) {
    shown::say(rt, b"in their order:");
    fault(rt, 14, 0, 0);
    fault(rt, 4, 0, 0);
    fault(rt, 4, 1, 1);
    fault(rt, 4, 1, 0);
    shown::end_line(rt);
}

fn size(rt: &HostRuntime, named: u8) {
    shown::number(rt, dayfile::size(named) as u64);
}

fn sizes(rt: &HostRuntime) {
    shown::say(rt, b"lengths for second mark bytes 0, 1, 128, 48, 15, 255:");
    size(rt, 0);
    size(rt, 1);
    size(rt, 128);
    size(rt, 48);
    size(rt, 15);
    size(rt, 255);
    shown::end_line(rt);
}

pub fn lines(rt: &HostRuntime) {
    unnamed(rt);
    in_order(rt);
    sizes(rt);
}
