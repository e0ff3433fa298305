// A record's bytes, and a record at a place of a piece.
ghost use Rattle.std.specs.Prelude.{◌≡◌, length};
ghost use Rattle.embedded.specs.Records.{record_of};
ghost use Rattle.embedded.specs.Writing.{are_six, write_refusal, write_room, write_length, eleven_of, read_refusal, read_numbers};

use crate::rooms::{bare_record, record_of};
use dayfile::{Read, Record, Wrote};

// A record's bytes at the start of a room, and how many they are.
pub fn loft_write_record(
    serial: u16,
    code: u8,
    named: u8,
    account: u16,
    amounts: &[u64],
    room: &mut [u8],
    length: &mut usize,
) -> u8
    ensures value { result ≡ write_refusal (are_six amounts.now) (record_of serial code named account amounts.now) room.old }
    ensures room_after { room.new ≡ write_room (are_six amounts.now) (record_of serial code named account amounts.now)
        room.old }
    ensures length_after { length.new ≡ write_length (are_six amounts.now) (record_of serial code named account amounts.now)
        room.old length.old }
{
    if amounts.len() != 6 {
        return 15;
    }
    let wrote = dayfile::write(record_of(serial, code, named, account, amounts), room);
    match wrote {
        Wrote::Refused(n) => n,
        Wrote::Written(n) => {
            *length = n;
            0
        }
    }
}

fn put_record(numbers: &mut [u64], next: usize, r: Record)
    requires { length numbers.old ≡ 11 }
    ensures { numbers.new ≡ eleven_of next r }
{
    numbers.copy_from_slice(&[
        next as u64,
        u64::from(r.serial),
        u64::from(r.code),
        u64::from(r.account),
        u64::from(r.named),
        r.kinds.cash,
        r.kinds.deposits,
        r.kinds.guarantees,
        r.kinds.securities,
        r.pledged,
        r.margin,
    ]);
}

// The record at a place. With 4 to 6 its head is told, behind the place after it.
pub fn loft_read_record(piece: &[u8], place: usize, numbers: &mut [u64]) -> u8
    ensures value { result ≡ read_refusal piece.now place numbers.old }
    ensures numbers_after { numbers.new ≡ read_numbers piece.now place numbers.old }
{
    if numbers.len() != 11 {
        return 15;
    }
    let read = dayfile::read_at(piece, place);
    match read {
        Read::End => 255,
        Read::Cut => 2,
        Read::Good(r, next) => {
            put_record(numbers, next, r);
            0
        }
        Read::Bad {
            reason,
            serial,
            code,
            account,
            next,
        } => {
            put_record(numbers, next, bare_record(serial, code, 0, account));
            reason
        }
    }
}
