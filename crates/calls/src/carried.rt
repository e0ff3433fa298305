// Calls 3, 4 and 5: records carried out. Call 10: a book taken over.
ghost use Rattle.std.specs.Prelude.{◌+◌, ◌≤◌, length, IfSome};

use crate::call::Told;
use crate::changed::put_book;
use crate::taken::{PIECE, length_at, record};
use desk::{Answer, Outcome, Record};
use numbers::number8;
use run::{Closing, Table};
use text::{put_each, put_number, put_text};

// Refusal or 0, and the number given or 0: the end has its word for the first.
fn put_outcome(room: &mut [u8], at: usize, o: Outcome) -> usize
    requires { at + 42 ≤ length room.old }
    ensures { result ≤ at + 42 }
{
    match o {
        Outcome::CarriedOut => put_two(room, at, 0, 0),
        Outcome::Opened(n) => put_two(room, at, 0, u64::from(n)),
        Outcome::Refused(reason) => put_two(room, at, u64::from(reason), 0),
        Outcome::End => put_text(room, at, b"end 0 "),
    }
}

fn put_two(room: &mut [u8], at: usize, a: u64, b: u64) -> usize
    requires { at + 42 ≤ length room.old }
    ensures { result ≤ at + 42 }
{
    let p = put_number(room, at, a, b' ');
    put_number(room, p, b, b' ')
}

fn put_answer(room: &mut [u8], a: Answer) -> usize
    requires { 105 ≤ length room.old }
    ensures { result ≤ 105 }
{
    let list = [u64::from(a.serial), u64::from(a.code), u64::from(a.account)];
    let at = put_each(room, 0, &list, 3);
    put_outcome(room, at, a.outcome)
}

// Carries out a record handed over as values, and puts the line.
fn put_carried(room: &mut [u8], before: Table, r: Record) -> usize
    requires { 178000 ≤ length room.old }
    ensures { result ≤ length room.new }
{
    let done = desk::carry_out(before, r);
    let at = put_answer(room, done.answer);
    put_book(room, at, before, done.table)
}

pub(crate) fn carry_out(bytes: &[u8], table: Table, room: &mut [u8]) -> Option<Told>
    requires { 178000 ≤ length room.old }
    ensures { IfSome result (λ t. (t.size ≤ length bytes.now) × (t.text ≤ length room.new)) }
{
    if bytes.len() < 54 {
        return None;
    }
    let r = record(bytes, 0);
    Some(Told {
        size: 54,
        text: put_carried(room, table, r),
    })
}

// Carries out the record at a place of a piece, and puts the line.
fn put_next(room: &mut [u8], before: Table, piece: &[u8], place: usize) -> usize
    requires { 178000 ≤ length room.old }
    ensures { result ≤ length room.new }
{
    let next = desk::carry_out_next(before, piece, place);
    let p = put_answer(room, next.answer);
    let at = put_number(room, p, next.place as u64, b' ');
    put_book(room, at, before, next.table)
}

fn put_word(room: &mut [u8], word: Closing) -> usize
    requires { 21 ≤ length room.old }
    ensures { result ≤ 21 }
{
    match word {
        Closing::End => put_text(room, 0, b"end "),
        Closing::Cut => put_text(room, 0, b"cut "),
        Closing::Long => put_text(room, 0, b"long "),
        Closing::Unsound => put_number(room, 0, 1, b' '),
    }
}

// Carries out the records of a piece, and puts the line.
fn put_day(room: &mut [u8], before: Table, piece: &[u8], most: u64) -> usize
    requires { 178000 ≤ length room.old }
    ensures { result ≤ length room.new }
{
    let ended = run::day(before, piece, most);
    let p = put_word(room, ended.closing);
    let list = [ended.place as u64, ended.read, ended.done];
    let at = put_each(room, p, &list, 3);
    put_book(room, at, before, ended.table)
}

// Where a piece behind its length ends, and the place or the number behind it.
#[derive(Clone, Copy)]
struct Behind {
    end: usize,
    number: u64,
}

fn piece_of(bytes: &[u8]) -> Option<Behind>
    ensures { IfSome result (λ a. (4 ≤ a.end) × (a.end + 8 ≤ length bytes.now)) }
{
    let end = 4 + length_at(bytes, 0, PIECE)?;
    if bytes.len() < end + 8 {
        return None;
    }
    Some(Behind {
        end,
        number: number8(bytes, end),
    })
}

// Call 4: a piece and a place.
pub(crate) fn carry_out_next(bytes: &[u8], table: Table, room: &mut [u8]) -> Option<Told>
    requires { 178000 ≤ length room.old }
    ensures { IfSome result (λ t. (t.size ≤ length bytes.now) × (t.text ≤ length room.new)) }
{
    let asked = piece_of(bytes)?;
    Some(Told {
        size: asked.end + 8,
        text: put_next(room, table, &bytes[4..asked.end], asked.number as usize),
    })
}

// Call 5: a piece and a number.
pub(crate) fn day(bytes: &[u8], table: Table, room: &mut [u8]) -> Option<Told>
    requires { 178000 ≤ length room.old }
    ensures { IfSome result (λ t. (t.size ≤ length bytes.now) × (t.text ≤ length room.new)) }
{
    let asked = piece_of(bytes)?;
    Some(Told {
        size: asked.end + 8,
        text: put_day(room, table, &bytes[4..asked.end], asked.number),
    })
}

// Takes a book over to the rule of K7, and puts the line.
pub(crate) fn take_over(before: Table, room: &mut [u8]) -> Option<Told>
    requires { 178000 ≤ length room.old }
    ensures { IfSome result (λ t. (t.size ≤ 0) × (t.text ≤ length room.new)) }
{
    let taken = book::take_over(before);
    let at = put_number(room, 0, u64::from(taken.refusal), b' ');
    Some(Told {
        size: 0,
        text: put_book(room, at, before, taken.table),
    })
}
