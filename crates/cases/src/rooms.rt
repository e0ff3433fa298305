// The day call that tells each record's numbers: two records in a piece, rooms of other lengths, and books with one wrong kept need.
use crate::made::CASH;
use crate::{ended, made, shown};
use desk::Table;

// A receipt of one paisa for the CP, with the next serial: fifteen records made the book. Then the opening of a CP.
fn piece() -> [u8; 20] {
    let mut s = [0u8; 20];
    s[0] = 4;
    s[1] = CASH;
    s[3] = 15;
    s[5] = 3;
    s[13] = 1;
    s[14] = 3;
    s[17] = 16;
    s
}

// The closing word with the place and the counts, and the room, full of sevens before.
fn asked(rt: &HostRuntime, text: &[u8], t: Table, most: u64, room: &mut [u16]) {
    let bytes = piece();
    shown::say(rt, text);
    shown::say(rt, b":");
    ended::ended(rt, run::day_with_numbers(t, &bytes, most, room));
    shown::say(rt, b" room");
    ended::list(rt, room);
    shown::say(rt, b"\n");
}

// "up to a stated number", and five numbers of the room for each record.
fn rooms(rt: &HostRuntime, t: Table) {
    let mut twelve = [7u16; 12];
    asked(rt, b"room for two and 2 more", t, 9, &mut twelve);
    let mut twelve = [7u16; 12];
    asked(rt, b"the same, one record stated", t, 1, &mut twelve);
    let mut nine = [7u16; 9];
    asked(rt, b"room for one and 4 more", t, 9, &mut nine);
    let mut four = [7u16; 4];
    asked(rt, b"room for none", t, 9, &mut four);
    let mut none = [7u16; 0];
    asked(rt, b"no room", t, 9, &mut none);
}

fn kept(rt: &HostRuntime, text: &[u8], t: Table) {
    let mut room = [7u16; 10];
    asked(rt, text, t, 9, &mut room);
}

pub fn lines(rt: &HostRuntime) {
    let t = made::busy();
    rooms(rt, t);
    shown::say(rt, b"-- kept needs\n");
    kept(rt, b"kept right", t);
    kept(rt, b"the CM's one less", made::wrong(0, 8));
    kept(rt, b"the CM's one more", made::wrong(0, 10));
    kept(rt, b"the TM's one less", made::wrong(1, 105));
    kept(rt, b"the TM's one more", made::wrong(1, 107));
    kept(rt, b"the client's kept", made::wrong(2, 20));
    kept(rt, b"the CP's kept", made::wrong(3, 7));
    kept(rt, b"a need at a place never given", made::wrong(4, 1));
    kept(rt, b"a need at the last place", made::wrong(255, 1));
}
