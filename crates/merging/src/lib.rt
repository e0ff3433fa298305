// Two counters' day files made one (K14).
// Refusals stay the documents' numbers, 0 for none: `unless_refused` gives them so.
#![tactic(auto)]

ghost use Rattle.std.specs.Prelude.{◌≡◌, ◌≤◌, length, take};
ghost use Rattle.dayfile.specs.Reading.{number_of};
ghost use Rattle.merging.specs.Merging.{listed_in, not_merged, merged_of, room_merged};
ghost use Rattle.merging.specs.Inner.{looked, stopped, renumbered_in};

use dayfile::{Read, size};
use numbers::put2;
use text::put_text;

// What a merging came to: the refusal or 0; the file at fault, 1 for A, 2 for B, or 0; the place of the record at fault among the file's records, counted from 0; how many bytes were written.
// No Result: the definition of a merging's answer and docs/API.md say all four fields.
#[derive(Clone, Copy)]
pub struct Merged {
    pub refusal: u8,
    pub file: u8,
    pub index: usize,
    pub length: usize,
}

// The first record at fault in a file: how many good ones stand in front of it, and its refusal.
#[derive(Clone, Copy)]
struct Fault {
    index: usize,
    refusal: u8,
}

fn number_of(read: Read) -> u8
    ensures { result ≡ number_of read }
{
    match read {
        Read::End => 0,
        Read::Cut => 2,
        Read::Good(_, _) => 0,
        Read::Bad {
            reason,
            serial: _,
            code: _,
            account: _,
            next: _,
        } => reason,
    }
}

// Each record says how long it is, so no count of places leads the walk, here and in renumber.
fn look(file: &[u8]) -> Option<Fault>
    ensures { result ≡ stopped (looked 0 (listed_in file.now)) }
{
    let mut index: usize = 0;
    let mut place: usize = 0;
    while place < file.len() {
        let refusal = number_of(dayfile::read_at(file, place));
        if refusal != 0 {
            return Some(Fault { index, refusal });
        }
        place += size(file[place + 1]);
        index += 1;
    }
    None
}

// Numbers the records of the file in the room's first n bytes anew, from a serial on: a good record's serial stands behind its mark, whatever its length.
fn renumber(room: &mut [u8], n: usize, first: u16)
    requires { (n ≤ length room.old) × ((listed_in (take n room.old)).refusal ≡ 0) }
    ensures { room.new ≡ renumbered_in room.old n first }
{
    let mut serial = first;
    let mut place: usize = 0;
    while place < n {
        let next = place + size(room[place + 1]);
        put2(room, place + 2, serial);
        serial = serial.wrapping_add(1);
        place = next;
    }
}

fn refused(refusal: u8, file: u8, index: usize) -> Merged
    ensures { result ≡ not_merged refusal file index }
{
    Merged {
        refusal,
        file,
        index,
        length: 0,
    }
}

// Writes one day file at the start of a room, A's records and then B's, numbered from a serial on; or refuses and writes nothing.
pub fn merge(a: &[u8], b: &[u8], next: u16, room: &mut [u8]) -> Merged
    ensures value { result ≡ merged_of a.now b.now next room.old }
    ensures room_after { room.new ≡ room_merged a.now b.now next room.old }
{
    if let Some(fault) = look(a) {
        return refused(fault.refusal, 1, fault.index);
    }
    if let Some(fault) = look(b) {
        return refused(fault.refusal, 2, fault.index);
    }
    if room.len() < a.len() {
        return refused(15, 0, 0);
    }
    if room.len() - a.len() < b.len() {
        return refused(15, 0, 0);
    }
    let place = put_text(room, 0, a);
    let length = put_text(room, place, b);
    renumber(room, length, next);
    Merged {
        refusal: 0,
        file: 0,
        index: 0,
        length,
    }
}
