// One call: the byte in front says which.
ghost use Rattle.std.specs.Prelude.{◌+◌, ◌≤◌, length, IfSome};

use crate::{archived, asked, carried, checked, closed, exposed, margins, passed, pieces};
use desk::Table;

// How many bytes a call takes, and how long its line is. What is no call, or is cut short, has none.
#[derive(Clone, Copy)]
pub(crate) struct Told {
    pub(crate) size: usize,
    pub(crate) text: usize,
}

// The calls that take a book in front, with the bytes behind the book: a size is of these.
fn of_book(call: u8, bytes: &[u8], table: Table, room: &mut [u8]) -> Option<Told>
    requires { 178000 ≤ length room.old }
    ensures { IfSome result (λ t. (t.size ≤ length bytes.now) × (t.text ≤ length room.new)) }
{
    match call {
        1 => asked::is_sound(table, room),
        2 => asked::standing(bytes, table, room),
        3 => carried::carry_out(bytes, table, room),
        4 => carried::carry_out_next(bytes, table, room),
        5 => carried::day(bytes, table, room),
        8 => closed::close_out(bytes, table, room),
        9 => asked::needs(bytes, table, room),
        10 => carried::take_over(table, room),
        15 => checked::check(bytes, table, room),
        16 => archived::archive(bytes, table, room),
        17 => passed::most(bytes, table, room),
        _ => None,
    }
}

// Where the arguments after a book begin: the call's byte and the book's stand in front, and its fourth byte tells the
// version by which it is 24,332 or 23,816 long.
fn after_book(bytes: &[u8]) -> usize
    ensures { (1 ≤ result) × (result ≤ 24_333) }
{
    if bytes.len() < 5 {
        return 24_333;
    }
    if bytes[4] == 2 { 24_333 } else { 23_817 }
}

fn with_book(bytes: &[u8], room: &mut [u8]) -> Option<Told>
    requires { 178000 ≤ length room.old }
    ensures { IfSome result (λ t. (t.size ≤ length bytes.now) × (t.text ≤ length room.new)) }
{
    let from = after_book(bytes);
    if bytes.len() < from {
        return None;
    }
    let held = bookfile::read(&bytes[1..from]);
    if !held.is_book {
        return None;
    }
    let told = of_book(bytes[0], &bytes[from..], held.table, room)?;
    Some(Told {
        size: from + told.size,
        text: told.text,
    })
}

// The longest line takes 177,513 bytes: two numbers, the longest archive and a book of which all places differ.
fn answer_first(bytes: &[u8], room: &mut [u8]) -> Option<Told>
    requires { (1 ≤ length bytes.now) × (178000 ≤ length room.old) }
    ensures { IfSome result (λ t. (t.size ≤ length bytes.now) × (t.text ≤ length room.new)) }
{
    match bytes[0] {
        1..=5 | 8..=10 | 15..=17 => with_book(bytes, room),
        6 => pieces::read_at(bytes, room),
        7 => pieces::write(bytes, room),
        11 => margins::margin(bytes, room),
        12 => exposed::one_client(bytes, room),
        13 => exposed::margin(bytes, room),
        14 => exposed::clients(bytes, room),
        _ => None,
    }
}

// Puts a call's line at a place of the room.
pub(crate) fn answer(bytes: &[u8], room: &mut [u8], put: usize) -> Option<Told>
    requires { (1 ≤ length bytes.now) × (put + 178000 ≤ length room.old) }
    ensures { IfSome result (λ t. (t.size ≤ length bytes.now) × (put + t.text ≤ length room.new)) }
{
    answer_first(bytes, &mut room[put..])
}
