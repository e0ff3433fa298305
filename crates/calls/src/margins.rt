// Call 11: the record that sets a client's margin on the currency desk.
ghost use Rattle.std.specs.Prelude.{◌≡◌, ◌+◌, ◌*◌, ◌≤◌, length, IfSome};

use crate::call::Told;
use crate::taken::{LIST, length_at};
use currency::{MOST, Made, Position, Record, Side};
use numbers::{number2, number8};
use text::{put_number, put_spaced};

// Where the positions begin: the call's byte, serial, account, initial margin and their length stand in front.
const FROM: usize = 17;

fn side_of(byte: u8) -> Side {
    match byte {
        0 => Side::Futures,
        1 => Side::Short,
        2 => Side::Long,
        _ => Side::Spread,
    }
}

// "product 1, side 1, notional 8"
fn position(bytes: &[u8], at: usize) -> Position
    requires { at + 10 ≤ length bytes.now }
{
    Position {
        product: bytes[at],
        side: side_of(bytes[at + 1]),
        notional: number8(bytes, at + 2),
    }
}

// Whether each of n positions has one of the four sides.
fn sides_known(bytes: &[u8], n: usize) -> bool
    requires { (n ≤ 4096) × (17 + 10 * n ≤ length bytes.now) }
{
    for i in 0..n {
        if 3 < bytes[FROM + 10 * i + 1] {
            return false;
        }
    }
    true
}

// The first 64 of n positions.
pub(crate) fn positions(bytes: &[u8], n: usize) -> [Position; 64]
    requires { 17 + 10 * n ≤ length bytes.now }
{
    let empty = Position {
        product: 0,
        side: Side::Futures,
        notional: 0,
    };
    let mut list = [empty; 64];
    for i in 0..n.min(MOST) {
        list[i] = position(bytes, FROM + 10 * i);
    }
    list
}

// How many positions there are, all of them there and each of a known side.
pub(crate) fn count_of(bytes: &[u8]) -> Option<usize>
    ensures { IfSome result (λ n. (n ≤ 4096) × (17 + 10 * n ≤ length bytes.now)) }
{
    let n = length_at(bytes, 13, LIST)?;
    if bytes.len() < FROM + 10 * n {
        return None;
    }
    if !sides_known(bytes, n) {
        return None;
    }
    Some(n)
}

fn made_of(bytes: &[u8], n: usize) -> Made
    requires { 17 + 10 * n ≤ length bytes.now }
{
    currency::margin(
        number2(bytes, 1),
        number2(bytes, 3),
        number8(bytes, 5),
        positions(bytes, n),
        n,
    )
}

fn put_record(room: &mut [u8], r: Record) -> usize
    requires { 178000 ≤ length room.old }
    ensures { result ≤ length room.new }
{
    let list = [
        0,
        u64::from(r.serial),
        u64::from(r.code),
        u64::from(r.named),
        u64::from(r.account),
        r.kinds.cash,
        r.kinds.deposits,
        r.kinds.guarantees,
        r.kinds.securities,
        r.pledged,
        r.margin,
    ];
    put_spaced(room, 0, &list)
}

pub(crate) fn put_made(room: &mut [u8], made: Made) -> usize
    requires { 178000 ≤ length room.old }
    ensures { result ≤ length room.new }
{
    match made {
        Made::Given(record) => put_record(room, record),
        Made::Refused(refusal) => put_number(room, 0, u64::from(refusal), b'\n'),
    }
}

pub(crate) fn margin(bytes: &[u8], room: &mut [u8]) -> Option<Told>
    requires { 178000 ≤ length room.old }
    ensures { IfSome result (λ t. (t.size ≤ length bytes.now) × (t.text ≤ length room.new)) }
{
    let n = count_of(bytes)?;
    let made = made_of(bytes, n);
    Some(Told {
        size: FROM + 10 * n,
        text: put_made(room, made),
    })
}
