// Calls 1, 2 and 9: what the book is asked.
ghost use Rattle.std.specs.Prelude.{◌≤◌, length, IfSome};

use crate::call::Told;
use crate::rooms::{numbers, put_line};
use crate::taken::{LIST, length_at};
use book::{Figures, Table};
use numbers::number2;
use text::{put_number, put_spaced};

pub(crate) fn is_sound(table: Table, room: &mut [u8]) -> Option<Told>
    requires { 178000 ≤ length room.old }
    ensures { IfSome result (λ t. (t.size ≤ 0) × (t.text ≤ length room.new)) }
{
    let sound = book::is_sound(table);
    Some(Told {
        size: 0,
        text: put_number(room, 0, u64::from(sound), b'\n'),
    })
}

fn put_figures(room: &mut [u8], f: Figures) -> usize
    requires { 178000 ≤ length room.old }
    ensures { result ≤ length room.new }
{
    let list = [
        u64::from(f.refusal),
        f.collateral,
        f.need,
        f.blocked,
        f.deemed,
        f.free,
        u64::from(f.mode),
        f.shortfall,
    ];
    put_spaced(room, 0, &list)
}

pub(crate) fn standing(bytes: &[u8], table: Table, room: &mut [u8]) -> Option<Told>
    requires { 178000 ≤ length room.old }
    ensures { IfSome result (λ t. (t.size ≤ length bytes.now) × (t.text ≤ length room.new)) }
{
    if bytes.len() < 2 {
        return None;
    }
    let figures = book::standing(table, number2(bytes, 0));
    Some(Told {
        size: 2,
        text: put_figures(room, figures),
    })
}

// Asks for all needs with a room of n, and puts the line.
fn put_needs(room: &mut [u8], table: Table, n: usize) -> usize
    requires { (n ≤ 4096) × (178000 ≤ length room.old) }
    ensures { result ≤ length room.new }
{
    let end = n + 2;
    let mut line = numbers(n);
    let refusal = book::needs(table, &mut line[2..end]);
    line[1] = u64::from(refusal);
    put_line(room, 0, line, 1, end)
}

pub(crate) fn needs(bytes: &[u8], table: Table, room: &mut [u8]) -> Option<Told>
    requires { 178000 ≤ length room.old }
    ensures { IfSome result (λ t. (t.size ≤ length bytes.now) × (t.text ≤ length room.new)) }
{
    let n = length_at(bytes, 0, LIST)?;
    Some(Told {
        size: 4,
        text: put_needs(room, table, n),
    })
}
