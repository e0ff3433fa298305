// The extreme loss margin of the currency desk: a client's positions and its initial margin, made the record that sets its margin (K9).
#![tactic(auto)]

ghost use Rattle.std.specs.Prelude.{◌≡◌};
ghost use Rattle.currency.specs.Margins.{refusal_of, made_of, margin_record, number_made};

use charges::{charged, first_fault};
use rows::NO_KINDS;

mod charges;
mod rates;

pub use dayfile::{CEILING, Record};

// The most positions of a client.
pub const MOST: usize = 64;

// What a position is in. A spread's notional is the far month's value.
#[derive(Clone, Copy)]
pub enum Side {
    Futures,
    Short,
    Long,
    Spread,
}

// Products are numbered 0 to 9 in the paper's order, from EURINR to ONMIBOR. The notional is in paise.
#[derive(Clone, Copy)]
pub struct Position {
    pub product: u8,
    pub side: Side,
    pub notional: u64,
}

// The record that sets the margin, or the refusal.
#[derive(Clone, Copy)]
pub enum Made {
    Given(Record),
    Refused(u8),
}

fn record_of(serial: u16, account: u16, margin: u64) -> Record
    ensures { result ≡ margin_record serial account margin }
{
    Record {
        serial,
        code: 10,
        named: 32,
        account,
        kinds: NO_KINDS,
        pledged: 0,
        margin,
    }
}

// The record that sets an account's margin to the initial margin and the charges on the first so many positions.
pub fn margin(
    serial: u16,
    account: u16,
    initial: u64,
    positions: [Position; 64],
    number: usize,
) -> Made
    ensures value { result ≡ made_of serial account initial positions number }
    ensures result_value { number_made result ≡ refusal_of initial positions number }
{
    if MOST < number {
        return Made::Refused(15);
    }
    let positions = &positions[..number];
    let fault = first_fault(positions);
    if fault != 0 {
        return Made::Refused(fault);
    }
    if CEILING < initial {
        return Made::Refused(20);
    }
    let sum = initial + charged(positions);
    if CEILING < sum {
        return Made::Refused(21);
    }
    let record = record_of(serial, account, sum);
    Made::Given(record)
}
