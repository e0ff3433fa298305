// Calls 12 to 14: crystallised obligations, of one client, in its margin, and of a list of clients.
ghost use Rattle.std.specs.Prelude.{◌+◌, ◌*◌, ◌≤◌, length, IfSome};

use crate::call::Told;
use crate::closed::lengths;
use crate::margins::{count_of, positions, put_made};
use crate::rooms::{numbers, put_line};
use crate::taken::{length_at, list};
use currency::Made;
use exposure::Exposure;
use exposure::lists::Form;
use numbers::{number2, number8};
use text::put_spaced;

// How many figures are said to stand at a place: two or four.
fn count_at(bytes: &[u8], at: usize) -> Option<usize>
    ensures { IfSome result (λ n. n ≤ 4) }
{
    let n = length_at(bytes, at, 4)?;
    if (n != 2) & (n != 4) {
        return None;
    }
    Some(n)
}

// Figure k of n, or 0 where there are not so many.
fn figure(bytes: &[u8], at: usize, n: usize, k: usize) -> i64
    requires { (n ≤ 4) × (at + 4 + 8 * n ≤ length bytes.now) }
{
    if n <= k {
        return 0;
    }
    number8(bytes, at + 4 + 8 * k).cast_signed()
}

fn exposure_of(bytes: &[u8], at: usize, n: usize) -> Exposure
    requires { (n ≤ 4) × (at + 4 + 8 * n ≤ length bytes.now) }
{
    if n == 2 {
        return exposure::intraday(figure(bytes, at, n, 0), figure(bytes, at, n, 1));
    }
    exposure::end_of_day(
        figure(bytes, at, n, 0),
        figure(bytes, at, n, 1),
        figure(bytes, at, n, 2),
        figure(bytes, at, n, 3),
    )
}

fn put_exposure(room: &mut [u8], e: Exposure) -> usize
    requires { 178000 ≤ length room.old }
    ensures { result ≤ length room.new }
{
    let list = [u64::from(e.refusal), e.amount];
    put_spaced(room, 0, &list)
}

pub(crate) fn one_client(bytes: &[u8], room: &mut [u8]) -> Option<Told>
    requires { (1 ≤ length bytes.now) × (178000 ≤ length room.old) }
    ensures { IfSome result (λ t. (t.size ≤ length bytes.now) × (t.text ≤ length room.new)) }
{
    let n = count_at(bytes, 1)?;
    let size = 5 + 8 * n;
    if bytes.len() < size {
        return None;
    }
    let exposure = exposure_of(bytes, 1, n);
    Some(Told {
        size,
        text: put_exposure(room, exposure),
    })
}

// The margin of n positions, with so many figures at a place.
fn joined(bytes: &[u8], n: usize, at: usize, count: usize) -> Made
    requires { (17 + 10 * n ≤ length bytes.now) × (count ≤ 4) × (at + 4 + 8 * count ≤ length bytes.now) }
{
    exposure::margin(
        number2(bytes, 1),
        number2(bytes, 3),
        number8(bytes, 5),
        positions(bytes, n),
        n,
        figure(bytes, at, count, 0),
        figure(bytes, at, count, 1),
        figure(bytes, at, count, 2),
        figure(bytes, at, count, 3),
    )
}

pub(crate) fn margin(bytes: &[u8], room: &mut [u8]) -> Option<Told>
    requires { 178000 ≤ length room.old }
    ensures { IfSome result (λ t. (t.size ≤ length bytes.now) × (t.text ≤ length room.new)) }
{
    let n = count_of(bytes)?;
    let at = 17 + 10 * n;
    let count = count_at(bytes, at)?;
    let size = at + 4 + 8 * count;
    if bytes.len() < size {
        return None;
    }
    let made = joined(bytes, n, at, count);
    Some(Told {
        size,
        text: put_made(room, made),
    })
}

// Asks with a room of n, and puts the line.
fn put_all(room: &mut [u8], form: Form, figures: &[i64], n: usize) -> usize
    requires { (n ≤ 4096) × (178000 ≤ length room.old) }
    ensures { result ≤ length room.new }
{
    let end = n + 2;
    let mut line = numbers(n);
    let refusal = exposure::lists::exposures(form, figures, &mut line[2..end]);
    line[1] = u64::from(refusal);
    put_line(room, 0, line, 1, end)
}

fn of_form(bytes: &[u8], form: Form, room: &mut [u8]) -> Option<Told>
    requires { 178000 ≤ length room.old }
    ensures { IfSome result (λ t. (t.size ≤ length bytes.now) × (t.text ≤ length room.new)) }
{
    let asked = lengths(bytes, 2)?;
    let figures = list(bytes, asked.from, asked.count, |bits| bits.cast_signed());
    Some(Told {
        size: asked.end,
        text: put_all(room, form, &figures[..asked.count], asked.room),
    })
}

pub(crate) fn clients(bytes: &[u8], room: &mut [u8]) -> Option<Told>
    requires { 178000 ≤ length room.old }
    ensures { IfSome result (λ t. (t.size ≤ length bytes.now) × (t.text ≤ length room.new)) }
{
    if bytes.len() < 2 {
        return None;
    }
    match bytes[1] {
        2 => of_form(bytes, Form::Intraday, room),
        4 => of_form(bytes, Form::EndOfDay, room),
        _ => None,
    }
}
