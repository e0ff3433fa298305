// A position's fault and its charge, and those of a client's positions.
// Refusals stay the documents' numbers, 0 for none: `first_fault` gives them so.
ghost use Rattle.std.specs.Prelude.{◌≡◌, ◌≤◌, ◌<◌, length};
ghost use Rattle.currency.specs.Charges.{is_option, fault_of, parts_of, carried_by, rounded_up, charge_of, first_fault, charges};

use crate::rates::{NONE, PRODUCTS, rate};
use crate::{CEILING, Position, Side};

fn is_option(side: Side) -> bool
    ensures { result ≡ is_option side }
{
    match side {
        Side::Futures => false,
        Side::Short => true,
        Side::Long => true,
        Side::Spread => false,
    }
}

fn fault_of(position: Position) -> u8
    ensures { result ≡ fault_of position }
{
    let side = position.side;
    if PRODUCTS <= position.product {
        return 18;
    }
    if is_option(side) & (rate(position.product, side) == NONE) {
        return 19;
    }
    if CEILING < position.notional {
        return 20;
    }
    0
}

// A third of a spread's notional is charged.
fn parts(side: Side) -> u64
    ensures { result ≡ parts_of side }
{
    match side {
        Side::Futures => 100_000,
        Side::Short => 100_000,
        Side::Long => 100_000,
        Side::Spread => 300_000,
    }
}

// What of a position's notional is charged.
fn carried(side: Side, notional: u64) -> u64
    ensures { result ≡ carried_by side notional }
{
    match side {
        Side::Futures => notional,
        Side::Short => notional,
        Side::Long => 0,
        Side::Spread => notional,
    }
}

fn rounded_up(share: u64, parts: u64) -> u64
    requires { (share ≤ 10_000_000_000_000_000) × (0 < parts) × (parts ≤ 300_000) }
    ensures { result ≡ rounded_up share parts }
{
    (share + (parts - 1)) / parts
}

fn charge(position: Position) -> u64
    requires { fault_of position ≡ 0 }
    ensures { result ≡ charge_of position }
{
    let side = position.side;
    let share = carried(side, position.notional) * rate(position.product, side);
    rounded_up(share, parts(side))
}

// The fault of the first position at fault, or 0.
pub(crate) fn first_fault(positions: &[Position]) -> u8
    ensures { result ≡ first_fault positions.now }
{
    for position in positions {
        let fault = fault_of(*position);
        if fault != 0 {
            return fault;
        }
    }
    0
}

// What the positions are charged together.
pub(crate) fn charged(positions: &[Position]) -> u64
    requires { (length positions.now ≤ 64) × (first_fault positions.now ≡ 0) }
    ensures { result ≡ charges positions.now }
{
    let mut sum = 0;
    for position in positions {
        sum += charge(*position);
    }
    sum
}
