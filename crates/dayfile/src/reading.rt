// What stands at a place of a piece of the day file.
ghost use Rattle.std.specs.Prelude.{◌≡◌, ◌+◌, ◌*◌, ◌≤◌, ◌<◌, length, drop};
ghost use Rattle.std.specs.Int.Count.{ones};
ghost use Rattle.dayfile.specs.Reading.{got, record_of, found_at, read_at, number_found, number_of, refusal_at, reader_refusal};
ghost use Rattle.dayfile.specs.Taking.{places_from};

use crate::faults::{fault_of, size};
use crate::{Found, Read, Record};
use numbers::{number2, number8, number8_if};
use rows::Kinds;

// The amount at a place where its bit is 1, or 0, where eight bytes follow in any case: no branch is taken by the bit.
fn amount_near(piece: &[u8], place: usize, bit: u8) -> u64
    requires { (place + 8 ≤ length piece.now) × (bit < 2) }
    ensures { result ≡ got bit (drop place piece.now) }
{
    bit as u64 * number8(piece, place)
}

// Where each of a record's six amounts stands, or would stand.
// Not an array: `places_from` is this record, and no place is asked for by a number.
#[derive(Clone, Copy)]
struct Places {
    p0: usize,
    p1: usize,
    p2: usize,
    p3: usize,
    p4: usize,
    p5: usize,
}

fn places_of(place: usize, named: u8) -> Places
    requires { place < 9_223_372_036_854_775_808 }
    ensures { result ≡ places_from place named }
{
    let p0 = place + 2 + 2;
    let p1 = p0 + 8 * ((named / 1 % 2) as usize);
    let p2 = p1 + 8 * ((named / 2 % 2) as usize);
    let p3 = p2 + 8 * ((named / 4 % 2) as usize);
    let p4 = p3 + 8 * ((named / 8 % 2) as usize);
    let p5 = p4 + 8 * ((named / 16 % 2) as usize);
    Places {
        p0,
        p1,
        p2,
        p3,
        p4,
        p5,
    }
}

// The record whose bytes after the mark stand at a place.
fn record_at(piece: &[u8], place: usize, code: u8, named: u8) -> Record
    requires { place + (4 + 8 * ones named) ≤ length piece.now }
    ensures { result ≡ record_of code named (drop place piece.now) }
{
    let p = places_of(place, named);
    Record {
        serial: number2(piece, place),
        code,
        named,
        account: number2(piece, place + 2),
        kinds: Kinds {
            cash: number8_if(piece, p.p0, named / 1 % 2),
            deposits: number8_if(piece, p.p1, named / 2 % 2),
            guarantees: number8_if(piece, p.p2, named / 4 % 2),
            securities: number8_if(piece, p.p3, named / 8 % 2),
        },
        pledged: number8_if(piece, p.p4, named / 16 % 2),
        margin: number8_if(piece, p.p5, named / 32 % 2),
    }
}

// The same where the longest record would end within the piece.
// Not one with record_at over a parameter: six calls of a closure would stand for six of a function.
fn record_near(piece: &[u8], place: usize, code: u8, named: u8) -> Record
    requires { place + 68 ≤ length piece.now }
    ensures { result ≡ record_of code named (drop place piece.now) }
{
    let p = places_of(place, named);
    Record {
        serial: number2(piece, place),
        code,
        named,
        account: number2(piece, place + 2),
        kinds: Kinds {
            cash: amount_near(piece, p.p0, named / 1 % 2),
            deposits: amount_near(piece, p.p1, named / 2 % 2),
            guarantees: amount_near(piece, p.p2, named / 4 % 2),
            securities: amount_near(piece, p.p3, named / 8 % 2),
        },
        pledged: amount_near(piece, p.p4, named / 16 % 2),
        margin: amount_near(piece, p.p5, named / 32 % 2),
    }
}

// What stands at a place, good or not. What is left is compared, so that no sum of a place and a length wraps.
pub fn found_at(piece: &[u8], place: usize) -> Found
    ensures value { result ≡ found_at piece.now place }
    ensures result_value { number_found result ≡ refusal_at piece.now place }
{
    if piece.len() <= place {
        return Found::End;
    }
    let left = piece.len() - place;
    if left < 2 {
        return Found::Cut;
    }
    let code = piece[place];
    let named = piece[place + 1];
    let n = size(named);
    if left < n {
        return Found::Cut;
    }
    if 70 <= left {
        let record = record_near(piece, place + 2, code, named);
        return Found::Whole(record, place + n);
    }
    let record = record_at(piece, place + 2, code, named);
    Found::Whole(record, place + n)
}

// What the reader gives at a place: for the reader's own calls, whose walks by hand rest on one equation.
pub(crate) fn answer_at(piece: &[u8], place: usize) -> Read
    ensures { result ≡ read_at piece.now place }
{
    match found_at(piece, place) {
        Found::End => Read::End,
        Found::Cut => Read::Cut,
        Found::Whole(record, next) => {
            let fault = fault_of(record);
            if fault == 0 {
                return Read::Good(record, next);
            }
            Read::Bad {
                reason: fault,
                serial: record.serial,
                code: record.code,
                account: record.account,
                next,
            }
        }
    }
}

// The same for any caller.
pub fn read_at(piece: &[u8], place: usize) -> Read
    ensures value { result ≡ read_at piece.now place }
    ensures result_value { number_of result ≡ reader_refusal (found_at piece.now place) }
{
    answer_at(piece, place)
}
