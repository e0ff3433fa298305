// A record's length, and its fault.
// Refusals stay the documents' numbers, 0 for none: `fault_of` gives them so.
ghost use Rattle.std.specs.Prelude.{true, ◌&&◌, ◌≡◌, ◌<◌, leb, eqb};
ghost use Rattle.dayfile.specs.Records.{known_code, suits, least_pledged, good_amount, good_amounts, fault_of};
ghost use Rattle.dayfile.specs.Reading.{size_of};
ghost use Rattle.dayfile.specs.Taking.{mark_of};

use crate::Record;
use rows::CEILING;
use rows::ranges::kinds_zero;

// The length in bytes of a record with this second mark byte.
pub fn size(named: u8) -> usize
    ensures { result ≡ size_of named }
{
    let n = u8::count_ones(named) as usize;
    6 + 8 * n
}

fn known_code(code: u8) -> bool
    ensures { result ≡ known_code code }
{
    (1 <= code) & (code <= 13)
}

// Codes 4 to 7 name kinds and nothing else.
fn names_kinds(code: u8) -> bool
    ensures { result ≡ (leb 4 code && leb code 7) }
{
    (4 <= code) & (code <= 7)
}

// The one second mark byte that suits any other code.
fn mark_of(code: u8) -> u8
    ensures { result ≡ mark_of code }
{
    if (code == 10) | (code == 13) {
        return 32;
    }
    if ((8 <= code) & (code <= 9)) | (code == 12) {
        16
    } else {
        0
    }
}

fn suits_code(code: u8, named: u8) -> bool
    requires { known_code code ≡ true }
    ensures { result ≡ suits code named }
{
    if names_kinds(code) {
        return (1 <= named) & (named <= 15);
    }
    named == mark_of(code)
}

// An amount whose bit is 1 or 0: from 1 to the ceiling, or 0.
fn good_amount(bit: u8, x: u64) -> bool
    requires { bit < 2 }
    ensures { result ≡ good_amount bit 1 x }
{
    let least = bit as u64;
    (least <= x) & (x <= least * CEILING)
}

// What is set may be 0: a margin, and with code 12 what is pledged (K8).
fn good_set(bit: u8, x: u64) -> bool
    requires { bit < 2 }
    ensures { result ≡ good_amount bit 0 x }
{
    x <= bit as u64 * CEILING
}

fn good_pledged(code: u8, bit: u8, x: u64) -> bool
    requires { bit < 2 }
    ensures { result ≡ good_amount bit (least_pledged code) x }
{
    if code == 12 {
        return good_set(bit, x);
    }
    good_amount(bit, x)
}

// Of amounts that the second mark byte, which suits the code, can't name, only that they are 0 is asked.
fn good_amounts(record: Record) -> bool
    requires { (known_code «record».code ≡ true) × (suits «record».code «record».named ≡ true) }
    ensures { result ≡ good_amounts «record» }
{
    let named = record.named;
    let k = record.kinds;
    if names_kinds(record.code) {
        return good_amount(named / 1 % 2, k.cash)
            & good_amount(named / 2 % 2, k.deposits)
            & good_amount(named / 4 % 2, k.guarantees)
            & good_amount(named / 8 % 2, k.securities)
            & (record.pledged == 0)
            & (record.margin == 0);
    }
    kinds_zero(record.kinds)
        & good_pledged(record.code, named / 16 % 2, record.pledged)
        & good_set(named / 32 % 2, record.margin)
}

// The first of 4, 5, 6 that applies, or 0.
pub fn fault_of(record: Record) -> u8
    ensures { result ≡ fault_of «record» }
{
    if !known_code(record.code) {
        return 4;
    }
    if !suits_code(record.code, record.named) {
        return 5;
    }
    if !good_amounts(record) {
        return 6;
    }
    0
}
