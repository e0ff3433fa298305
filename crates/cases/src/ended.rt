// What a day came to, and a room of numbers, on standard output.
use crate::shown::{number, say};
use run::{Closing, Ended};

fn word(rt: &HostRuntime, closing: Closing) {
    match closing {
        Closing::End => say(rt, b" end"),
        Closing::Cut => say(rt, b" cut"),
        Closing::Long => say(rt, b" long"),
        Closing::Unsound => say(rt, b" 1"),
    }
}

// The closing word, the place and the counts.
pub fn ended(rt: &HostRuntime, e: Ended) {
    word(rt, e.closing);
    number(rt, e.place as u64);
    number(rt, e.read);
    number(rt, e.done);
}

pub fn list(rt: &HostRuntime, room: &[u16]) {
    for n in room {
        number(rt, u64::from(*n));
    }
}
