// A record's bytes, put into a lent room.
ghost use Rattle.std.specs.Prelude.{◌≡◌, ◌+◌, ◌≤◌, length};
ghost use Rattle.std.proofs.lemmas.List.Edits.{sets};
ghost use Rattle.dayfile.specs.Written.{field, written_of, writer_refusal, wrote_of, room_after, refusal_wrote};
ghost use Rattle.dayfile.specs.Putting.{Put};

use crate::faults::{fault_of, size};
use crate::{Record, Wrote};
use numbers::{put2, put8};

// Puts an amount at a place where its bit is 1, and gives the place after it.
fn put_amount(room: &mut [u8], place: usize, bit: u8, x: u64) -> usize
    requires { place + length (field bit x) ≤ length room.old }
    ensures { Put room.old place (field bit x) result room.new }
{
    if bit == 0 {
        return place;
    }
    put8(room, place, x);
    place + 8
}

// Puts a record at the start of a room that it fits.
fn put_record(record: Record, room: &mut [u8])
    requires { length (written_of «record») ≤ length room.old }
    ensures { room.new ≡ sets room.old 0 (written_of «record») }
{
    let named = record.named;
    room[0] = record.code;
    room[1] = named;
    put2(room, 2, record.serial);
    put2(room, 4, record.account);
    let p1 = put_amount(room, 6, named / 1 % 2, record.kinds.cash);
    let p2 = put_amount(room, p1, named / 2 % 2, record.kinds.deposits);
    let p3 = put_amount(room, p2, named / 4 % 2, record.kinds.guarantees);
    let p4 = put_amount(room, p3, named / 8 % 2, record.kinds.securities);
    let p5 = put_amount(room, p4, named / 16 % 2, record.pledged);
    put_amount(room, p5, named / 32 % 2, record.margin);
}

// Writes a record at the start of a room, or refuses it and writes nothing.
pub fn write(record: Record, room: &mut [u8]) -> Wrote
    ensures value { (result ≡ wrote_of «record» room.old) × (refusal_wrote result ≡ writer_refusal «record» room.old) }
    ensures room_after { room.new ≡ room_after «record» room.old }
{
    let fault = fault_of(record);
    if fault != 0 {
        return Wrote::Refused(fault);
    }
    let n = size(record.named);
    if room.len() < n {
        return Wrote::Refused(15);
    }
    put_record(record, room);
    Wrote::Written(n)
}
