// Text turned into a day file, and a day file into text, piece by piece.
ghost use Rattle.std.specs.Prelude.{◌≡◌, ◌+◌, ◌≤◌, length, drop};
ghost use Rattle.sums.specs.Room.{at_start};
ghost use Rattle.words.specs.Texts.{line_turned, record_turned, line_length};
ghost use Rattle.words.specs.Pieces.{bytes_taken, text_taken, told_of};
ghost use Rattle.words.specs.Inner.{taken, record_end, Stepped};

use crate::Taken;
use crate::one::bytes_meant;
use crate::put::put_line;
use crate::raw::put_raw;
use crate::serial::moved;
use dayfile::{Found, Read, Wrote, found_at, read_at};
use text::put_text;

// What one part came to: the place after what was put, and the running serial then.
#[derive(Clone, Copy)]
struct Placed {
    after: usize,
    running: u16,
}

fn told(place: usize, lines: usize, count: usize, running: u16, fault: u8) -> Taken
    ensures { result ≡ taken place lines count running fault }
{
    Taken {
        place,
        lines,
        count,
        running,
        fault,
    }
}

// Where the line at a place ends.
pub fn line_end(text: &[u8], at: usize) -> usize
    ensures { result ≡ at + line_length (drop at text.now) }
{
    for i in at..text.len() {
        if text[i] == b'\n' {
            return i + 1;
        }
    }
    at.max(text.len())
}

// Puts the bytes that a line means.
fn line_into(line: &[u8], running: u16, room: &mut [u8], at: usize) -> Result<Placed, u8>
    requires { at + 70 ≤ length room.old }
    ensures { Stepped (line_turned running line.now) room.old at result room.new }
{
    let mut bytes = [0u8; 70];
    match bytes_meant(line, running, &mut bytes) {
        Wrote::Written(n) => {
            let after = put_text(room, at, &bytes[..n]);
            let next = moved(running, &bytes[..n]);
            Ok(Placed {
                after,
                running: next,
            })
        }
        Wrote::Refused(fault) => Err(fault),
    }
}

// Puts the bytes that the lines of a piece of text mean at a room's start: of as many lines as the room surely holds, 70
// bytes for each, up to the first that says nothing. A line without its newline is taken only where the piece is the last.
pub fn bytes_of_text(text: &[u8], last: bool, running: u16, room: &mut [u8]) -> Taken
    ensures value { result ≡ told_of (bytes_taken last (length room.old) running text.now) }
    ensures room_after { room.new ≡ at_start (bytes_taken last (length room.old) running text.now).bytes room.old }
{
    let mut place: usize = 0;
    let mut lines: usize = 0;
    let mut count: usize = 0;
    let mut next = running;
    // A `while`: a turn goes on by its line's length, and a line left for the next piece ends it.
    while place < text.len() {
        let end = line_end(text, place);
        let whole = last | (text[end - 1] == b'\n');
        if !whole | (room.len() - count < 70) {
            return told(place, lines, count, next, 0);
        }
        match line_into(&text[place..end], next, room, count) {
            Err(fault) => {
                return told(place, lines, count, next, fault);
            }
            Ok(placed) => {
                place = end;
                lines += 1;
                count = placed.after;
                next = placed.running;
            }
        }
    }
    told(place, lines, count, next, 0)
}

// Where a part ends, and whether it is there as a whole.
// No Option: the place counts in either case.
#[derive(Clone, Copy)]
struct End {
    place: usize,
    whole: bool,
}

// Where the record at a place ends; a cut one ends where the piece does.
fn record_end(bytes: &[u8], at: usize) -> End
    ensures { result ≡ record_end bytes.now at }
{
    match found_at(bytes, at) {
        Found::Whole(_, next) => End {
            place: next,
            whole: true,
        },
        Found::End => End {
            place: bytes.len(),
            whole: false,
        },
        Found::Cut => End {
            place: bytes.len(),
            whole: false,
        },
    }
}

// Puts the line of a record, or of a cut end.
fn record_into(bytes: &[u8], running: u16, room: &mut [u8], at: usize) -> Result<Placed, u8>
    requires { (at + 205 ≤ length room.old) × (length bytes.now ≤ 70) }
    ensures { Stepped (record_turned running bytes.now) room.old at result room.new }
{
    let next = moved(running, bytes);
    let after = match read_at(bytes, 0) {
        Read::Good(record, _) => put_line(room, at, running, record),
        Read::Bad { .. } => put_raw(room, at, bytes),
        Read::Cut => put_raw(room, at, bytes),
        Read::End => put_raw(room, at, bytes),
    };
    Ok(Placed {
        after,
        running: next,
    })
}

// Puts the lines of the records of a piece of a day file at a room's start: of as many records as the room surely holds,
// 205 bytes for each. A cut end is taken only where the piece is the last.
pub fn text_of_bytes(bytes: &[u8], last: bool, running: u16, room: &mut [u8]) -> Taken
    ensures value { result ≡ told_of (text_taken last (length room.old) running bytes.now) }
    ensures room_after { room.new ≡ at_start (text_taken last (length room.old) running bytes.now).bytes room.old }
{
    let mut place: usize = 0;
    let mut lines: usize = 0;
    let mut count: usize = 0;
    let mut next = running;
    // A `while`: a turn goes on by its record's length.
    while place < bytes.len() {
        let found = record_end(bytes, place);
        let end = found.place;
        if !(last | found.whole) | (room.len() - count < 205) {
            return told(place, lines, count, next, 0);
        }
        match record_into(&bytes[place..end], next, room, count) {
            Err(fault) => {
                return told(place, lines, count, next, fault);
            }
            Ok(placed) => {
                place = end;
                lines += 1;
                count = placed.after;
                next = placed.running;
            }
        }
    }
    told(place, lines, count, next, 0)
}
