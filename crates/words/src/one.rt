// One line into a lent room, or the bytes that one line means.
ghost use Rattle.std.specs.Prelude.{◌≡◌, ◌≤◌, length, drop};
ghost use Rattle.words.specs.Texts.{raw_meant, meant};
ghost use Rattle.words.specs.Hex.{hex_from};
ghost use Rattle.words.specs.Rooms.{put_answer, put_room, line_answer, line_room, raw_answer, raw_room, meant_answer, meant_room};
ghost use Rattle.words.specs.Inner.{Held};

use crate::Line;
use crate::put::put_line;
use crate::raw::put_raw;
use crate::say::line_says;
use crate::scan::ends_at;
use crate::unhex::hex_at;
use dayfile::{Record, Wrote, fault_of, write};
use text::put_text;

// Puts bytes at the start of a room that holds them.
fn put_all(bytes: &[u8], room: &mut [u8]) -> Wrote
    ensures value { result ≡ put_answer 0 bytes.now room.old }
    ensures room_after { room.new ≡ put_room 0 bytes.now room.old }
{
    if room.len() < bytes.len() {
        return Wrote::Refused(15);
    }
    let n = put_text(room, 0, bytes);
    Wrote::Written(n)
}

// Writes a good record's line at the start of a room, or refuses it and writes nothing.
pub fn write_line(record: Record, running: u16, room: &mut [u8]) -> Wrote
    ensures value { result ≡ line_answer «record» running room.old }
    ensures room_after { room.new ≡ line_room «record» running room.old }
{
    let fault = fault_of(record);
    if fault != 0 {
        return Wrote::Refused(fault);
    }
    let mut line = [0u8; 205];
    let n = put_line(&mut line, 0, running, record);
    put_all(&line[..n], room)
}

// Writes a line of bytes, whatever they are, at the start of a room, or refuses them and writes nothing.
pub fn write_raw(bytes: &[u8], room: &mut [u8]) -> Wrote
    ensures value { result ≡ raw_answer bytes.now room.old }
    ensures room_after { room.new ≡ raw_room bytes.now room.old }
{
    if (bytes.len() < 1) | (70 < bytes.len()) {
        return Wrote::Refused(32);
    }
    let mut line = [0u8; 145];
    let n = put_raw(&mut line, 0, bytes);
    put_all(&line[..n], room)
}

// The bytes that stand after `raw`, into a room that surely holds them.
fn raw_meant(line: &[u8], from: usize, room: &mut [u8]) -> Wrote
    requires { 70 ≤ length room.old }
    ensures { Held (raw_meant line.now (hex_from 70 (drop from line.now) from)) result room.new }
{
    let h = hex_at(line, from, room);
    if h.count == 0 {
        return Wrote::Refused(32);
    }
    if !ends_at(line, h.next) {
        return Wrote::Refused(30);
    }
    Wrote::Written(h.count)
}

// The bytes that a line means, into a room that surely holds them.
pub(crate) fn bytes_meant(line: &[u8], running: u16, room: &mut [u8]) -> Wrote
    requires { 70 ≤ length room.old }
    ensures { Held (meant running line.now) result room.new }
{
    match line_says(line, running) {
        Line::Nothing => Wrote::Written(0),
        Line::Says(record) => write(record, room),
        Line::Raw(from) => raw_meant(line, from, room),
        Line::Bad(fault) => Wrote::Refused(fault),
    }
}

// Writes the bytes that a line means at the start of a room, or tells its fault and writes nothing.
pub fn bytes_of_line(line: &[u8], running: u16, room: &mut [u8]) -> Wrote
    ensures value { result ≡ meant_answer (meant running line.now) room.old }
    ensures room_after { room.new ≡ meant_room (meant running line.now) room.old }
{
    let mut bytes = [0u8; 70];
    match bytes_meant(line, running, &mut bytes) {
        Wrote::Written(n) => put_all(&bytes[..n], room),
        Wrote::Refused(fault) => Wrote::Refused(fault),
    }
}
