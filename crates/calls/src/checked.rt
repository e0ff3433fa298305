// Call 15: a TM's statement held against the book (K13).
ghost use Rattle.std.specs.Prelude.{◌≤◌, length, IfSome};

use crate::call::Told;
use crate::taken::{PIECE, length_at};
use numbers::number2;
use statement::Table;
use text::put_number;

fn put_checked(room: &mut [u8], table: Table, tm: u16, statement: &[u8]) -> usize
    requires { 178000 ≤ length room.old }
    ensures { result ≤ length room.new }
{
    let finding = statement::check(table, tm, statement);
    put_number(room, 0, u64::from(finding.refusal), b'\n')
}

pub(crate) fn check(bytes: &[u8], table: Table, room: &mut [u8]) -> Option<Told>
    requires { 178000 ≤ length room.old }
    ensures { IfSome result (λ t. (t.size ≤ length bytes.now) × (t.text ≤ length room.new)) }
{
    let to = 6 + length_at(bytes, 2, PIECE)?;
    if bytes.len() < to {
        return None;
    }
    Some(Told {
        size: to,
        text: put_checked(room, table, number2(bytes, 0), &bytes[6..to]),
    })
}
