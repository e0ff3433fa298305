// One record of a statement: its form, and its amounts held against the book's.
// Refusals stay the documents' numbers, 0 for none: `wanted_refusal` gives them so.
ghost use Rattle.std.specs.Prelude.{◌≡◌, ◌+◌, ◌*◌, ◌≤◌, ◌<◌, length, drop};
ghost use Rattle.std.specs.Int.Count.{ones};
ghost use Rattle.sums.specs.Table.{first};
ghost use Rattle.statement.specs.Forms.{size_in, parts_from, not_whole, bad_amount, bad_amounts, form_faults};
ghost use Rattle.statement.specs.Statements.{sum_faults, surplus_faults};
ghost use Rattle.statement.specs.Inner.{Fits, wanted_refusal};

use dayfile::size;
use numbers::{number2, number8_if};
use rows::CEILING;

// What a statement says of a client, in paise: received by the TM; of that retained by the TM and placed with the CM; of that retained by the CM (`held`) and
// placed with the clearing corporation (`lodged`).
#[derive(Clone, Copy)]
pub(crate) struct Parts {
    pub received: u64,
    pub retained: u64,
    pub placed: u64,
    pub held: u64,
    pub lodged: u64,
}

// The five amounts that stand from a place on.
fn parts_at(piece: &[u8], place: usize, named: u8) -> Parts
    requires { (place + 8 * ones named ≤ length piece.now) × (named < 32) }
    ensures { result ≡ parts_from named (drop place piece.now) }
{
    let p1 = place + 8 * ((named / 1 % 2) as usize);
    let p2 = p1 + 8 * ((named / 2 % 2) as usize);
    let p3 = p2 + 8 * ((named / 4 % 2) as usize);
    let p4 = p3 + 8 * ((named / 8 % 2) as usize);
    Parts {
        received: number8_if(piece, place, named / 1 % 2),
        retained: number8_if(piece, p1, named / 2 % 2),
        placed: number8_if(piece, p2, named / 4 % 2),
        held: number8_if(piece, p3, named / 8 % 2),
        lodged: number8_if(piece, p4, named / 16 % 2),
    }
}

// How long the record is that stands at a place.
pub(crate) fn size_at(piece: &[u8], place: usize) -> usize
    requires { place + 2 ≤ length piece.now }
    ensures { result ≡ size_in (drop place piece.now) }
{
    size(piece[place + 1]) - 2
}

fn not_whole(piece: &[u8], place: usize) -> bool
    requires { place ≤ length piece.now }
    ensures { result ≡ not_whole (drop place piece.now) }
{
    let left = piece.len() - place;
    if left < 4 {
        return true;
    }
    (piece[place] != 1) | (32 <= piece[place + 1]) | (left < size_at(piece, place))
}

fn bad_amount(bit: u8, x: u64) -> bool
    ensures { result ≡ bad_amount bit x }
{
    (bit != 0) & ((x == 0) | (4 * CEILING < x))
}

fn bad_amounts(named: u8, p: Parts) -> bool
    ensures { result ≡ bad_amounts named p }
{
    bad_amount(named / 1 % 2, p.received)
        | bad_amount(named / 2 % 2, p.retained)
        | bad_amount(named / 4 % 2, p.placed)
        | bad_amount(named / 8 % 2, p.held)
        | bad_amount(named / 16 % 2, p.lodged)
}

fn form_fault(piece: &[u8], place: usize) -> u8
    requires { place ≤ length piece.now }
    ensures { result ≡ first (form_faults (drop place piece.now)) }
{
    if not_whole(piece, place) {
        return 24;
    }
    let named = piece[place + 1];
    let p = parts_at(piece, place + 4, named);
    if bad_amounts(named, p) {
        return 25;
    }
    0
}

// A client's amounts against its totals in the book.
fn sum_fault(p: Parts, received: u64, allocated: u64) -> u8
    requires { Fits p }
    ensures { result ≡ first (sum_faults p received allocated) }
{
    if p.retained + p.placed != p.received {
        return 27;
    }
    if p.held + p.lodged != p.placed {
        return 27;
    }
    if p.received != received {
        return 28;
    }
    if allocated < p.lodged {
        return 29;
    }
    0
}

// The refusal of what stands at a place where the record of this account is wanted, or 0.
pub(crate) fn record_fault(
    piece: &[u8],
    place: usize,
    account: u16,
    received: u64,
    allocated: u64,
) -> u8
    requires { place ≤ length piece.now }
    ensures { result ≡ wanted_refusal piece.now place account received allocated }
{
    if piece.len() <= place {
        return 26;
    }
    let fault = form_fault(piece, place);
    if fault != 0 {
        return fault;
    }
    if number2(piece, place + 2) != account {
        return 26;
    }
    let p = parts_at(piece, place + 4, piece[place + 1]);
    sum_fault(p, received, allocated)
}

// The refusal of what stands behind the record of the last client.
pub(crate) fn surplus_fault(piece: &[u8], place: usize) -> u8
    requires { place ≤ length piece.now }
    ensures { result ≡ first (surplus_faults (drop place piece.now)) }
{
    let fault = form_fault(piece, place);
    if fault != 0 {
        return fault;
    }
    26
}
