// The record that sets an account's margin.
ghost use Rattle.std.specs.Prelude.{◌≡◌, ◌≤◌, ◌↔◌, length, slice_index, IsTrue, EachIndex};
ghost use Rattle.sums.specs.Listed.{list_to};
ghost use Rattle.exposure.specs.Lists.{figure_at};
ghost use Rattle.embedded.specs.Margins.{side_of, position_at, are_positions, are_many, made_in, margin_refusal, margin_room};

use currency::{MOST, Made, Position, Side};

#[tactic(auto, unfolding(sums::specs::Choice::pick))]
fn side_of(n: u8) -> Side
    ensures { result ≡ side_of n }
{
    match n {
        0 => Side::Futures,
        1 => Side::Short,
        2 => Side::Long,
        _ => Side::Spread,
    }
}

fn sides_known(sides: &[u8]) -> bool
    ensures { IsTrue result ↔ EachIndex sides.now (λ k. slice_index sides.now k ≤ 3) }
{
    sides.iter().all(|side| *side <= 3)
}

fn are_positions(products: &[u8], sides: &[u8], notionals: &[u64]) -> bool
    ensures { result ≡ are_positions products.now sides.now notionals.now }
{
    if sides.len() != products.len() {
        return false;
    }
    if notionals.len() != products.len() {
        return false;
    }
    if MOST < products.len() {
        return false;
    }
    sides_known(sides)
}

fn are_many(n: usize) -> bool
    ensures { result ≡ are_many n }
{
    (n == 0) | (n == 2) | (n == 4)
}

// Beyond the lists' end there is a position of nothing.
fn position_at(products: &[u8], sides: &[u8], notionals: &[u64], i: usize) -> Position
    requires { (length sides.now ≡ length products.now) × (length notionals.now ≡ length products.now) }
    ensures { result ≡ position_at products.now sides.now notionals.now i }
{
    if products.len() <= i {
        let side = side_of(0);
        return Position {
            product: 0,
            side,
            notional: 0,
        };
    }
    let side = side_of(sides[i]);
    Position {
        product: products[i],
        side,
        notional: notionals[i],
    }
}

fn positions(products: &[u8], sides: &[u8], notionals: &[u64]) -> [Position; 64]
    requires { (length sides.now ≡ length products.now) × (length notionals.now ≡ length products.now) }
    ensures { result ≡ list_to (position_at products.now sides.now notionals.now) 64 }
{
    let empty = Position {
        product: 0,
        side: Side::Futures,
        notional: 0,
    };
    let mut list = [empty; 64];
    for (i, place) in list.iter_mut().enumerate() {
        *place = position_at(products, sides, notionals, i);
    }
    list
}

// A figure that isn't there is 0.
fn figure_at(figures: &[i64], i: usize) -> i64
    ensures { result ≡ figure_at figures.now i }
{
    if i < figures.len() { figures[i] } else { 0 }
}

fn made_in(
    serial: u16,
    account: u16,
    initial: u64,
    products: &[u8],
    sides: &[u8],
    notionals: &[u64],
    figures: &[i64],
) -> Made
    requires { (length sides.now ≡ length products.now) × (length notionals.now ≡ length products.now) }
    ensures { result ≡ made_in serial account initial products.now sides.now notionals.now figures.now }
{
    let list = positions(products, sides, notionals);
    let number = products.len();
    if figures.len() == 0 {
        return currency::margin(serial, account, initial, list, number);
    }
    exposure::margin(
        serial,
        account,
        initial,
        list,
        number,
        figure_at(figures, 0),
        figure_at(figures, 1),
        figure_at(figures, 2),
        figure_at(figures, 3),
    )
}

// K9's record where there are no figures, and otherwise K10's. The record made is good, so the writer doesn't refuse it.
pub fn loft_margin(
    serial: u16,
    account: u16,
    initial: u64,
    products: &[u8],
    sides: &[u8],
    notionals: &[u64],
    figures: &[i64],
    record: &mut [u8],
) -> u8
    ensures value { result ≡ margin_refusal serial account initial products.now sides.now notionals.now
        figures.now «record».old }
    ensures record_after { «record».new ≡ margin_room serial account initial products.now sides.now notionals.now
        figures.now «record».old }
{
    if !are_positions(products, sides, notionals) {
        return 15;
    }
    if !are_many(figures.len()) {
        return 15;
    }
    if record.len() != 14 {
        return 15;
    }
    let made = made_in(
        serial, account, initial, products, sides, notionals, figures,
    );
    match made {
        Made::Refused(n) => n,
        Made::Given(r) => {
            dayfile::write(r, record);
            0
        }
    }
}
