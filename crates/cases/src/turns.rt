// A reader over document 01's example file, a record of an unknown code and a cut one, turn by turn.
use crate::shown::{pair, say};
use crate::turning;
use crate::turning::Turn;
use dayfile::Read;

// The end, 2, a good record, or the refusal; with its serial, code and account.
fn answer(rt: &HostRuntime, read: Read) {
    match read {
        Read::End => say(rt, b" end"),
        Read::Cut => say(rt, b" 2"),
        Read::Good(record, _) => {
            pair(rt, b" good, serial", u64::from(record.serial));
            pair(rt, b", code", u64::from(record.code));
            pair(rt, b", account", u64::from(record.account));
        }
        Read::Bad {
            reason,
            serial,
            code,
            account,
            next: _,
        } => {
            pair(rt, b" refusal", u64::from(reason));
            pair(rt, b", serial", u64::from(serial));
            pair(rt, b", code", u64::from(code));
            pair(rt, b", account", u64::from(account));
        }
    }
}

// A turn at a place.
fn line(rt: &HostRuntime, at: usize, t: Turn) {
    pair(rt, b"at", at as u64);
    say(rt, b" sees");
    answer(rt, t.seen);
    say(rt, b"; gives");
    answer(rt, t.given);
    pair(rt, b"; then at", t.place as u64);
    say(rt, b"\n");
}

fn turns(rt: &HostRuntime, piece: &[u8], place: usize, n: u8) {
    let mut at = place;
    for _ in 0..n {
        let t = turning::take_turn(piece, at);
        line(rt, at, t);
        at = t.place;
    }
}

pub fn lines(rt: &HostRuntime) {
    let piece = b"\x01\x00\x00\x00\x00\x00\
\x02\x00\x00\x01\x00\x01\
\x04\x01\x00\x02\x00\x02\x00\x00\x00\x00\x00\x00\x75\x30\
\x06\x01\x00\x03\x00\x02\x00\x00\x00\x00\x00\x00\x75\x30\
\x0A\x20\x00\x04\x00\x02\x00\x00\x00\x00\x00\x00\xEA\x60\
\x0E\x00\x00\x05\x00\x00\
\x01";
    turns(rt, piece, 0, 8);
    turns(rt, piece, 61, 2);
    turns(rt, piece, 18446744073709551615, 1);
}
