// What is found at places of a piece, at its end and past it.
use crate::shown;
use dayfile::Found;

fn found(rt: &HostRuntime, f: Found) {
    match f {
        Found::End => shown::say(rt, b" end"),
        Found::Cut => shown::say(rt, b" cut"),
        Found::Whole(record, next) => {
            shown::pair(rt, b" code", u64::from(record.code));
            shown::pair(rt, b", serial", u64::from(record.serial));
            shown::pair(rt, b", account", u64::from(record.account));
            shown::pair(rt, b", cash", record.kinds.cash);
            shown::pair(rt, b"; next", next as u64);
        }
    }
}

fn line(rt: &HostRuntime, piece: &[u8], place: usize) {
    shown::pair(rt, b"bytes", piece.len() as u64);
    shown::pair(rt, b", place", place as u64);
    shown::say(rt, b":");
    found(rt, dayfile::found_at(piece, place));
    shown::end_line(rt);
}

// Retire account 9, serial 7; an unknown code with cash past the ceiling: it is found as any other.
pub fn lines(rt: &HostRuntime) {
    let piece = b"\x0B\x00\x00\x07\x00\x09\
\x0C\x01\xFF\xFF\x00\x00\xFF\xFF\xFF\xFF\xFF\xFF\xFF\xFF";
    line(rt, piece, 0);
    line(rt, piece, 6);
    line(rt, piece, 7);
    line(rt, piece, 19);
    line(rt, piece, 20);
    line(rt, piece, 21);
    line(rt, piece, 18446744073709551610);
    line(rt, piece, 18446744073709551615);
    line(rt, b"", 0);
    line(rt, b"", 18446744073709551615);
}
