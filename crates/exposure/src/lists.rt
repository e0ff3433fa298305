// The figures of many clients, one client's behind the other's.
// Refusals stay the documents' numbers, 0 for none: `list_refusal` gives them so.
ghost use Rattle.std.specs.Prelude.{◌≡◌, ◌+◌, ◌*◌, ◌≤◌, length};
ghost use Rattle.sums.specs.Listed.{list_to};
ghost use Rattle.exposure.specs.Lists.{figures_from, width_of, clients_in, client_of, number_in_room, list_refusal, list_room};

use crate::{Exposure, end_of_day, intraday};

// How many figures a client has: two, or four at the end of day.
// An enum and no const size: a caller picks it as it runs, and the two go to two calls, `intraday` and `end_of_day`.
#[derive(Clone, Copy)]
pub enum Form {
    Intraday,
    EndOfDay,
}

fn place(form: Form, i: usize) -> usize
    requires { i ≤ 4_611_686_018_427_387_903 }
    ensures { result ≡ figures_from form i }
{
    match form {
        Form::Intraday => 2 * i,
        Form::EndOfDay => 4 * i,
    }
}

fn clients(form: Form, length: usize) -> usize
    ensures { result ≡ clients_in form length }
{
    match form {
        Form::Intraday => length / 2,
        Form::EndOfDay => length / 4,
    }
}

fn by_two(figures: &[i64], i: usize) -> Exposure
    requires { 2 * i + 2 ≤ length figures.now }
    ensures { result ≡ client_of Form.Intraday figures.now i }
{
    let at = 2 * i;
    intraday(figures[at], figures[at + 1])
}

fn by_four(figures: &[i64], i: usize) -> Exposure
    requires { 4 * i + 4 ≤ length figures.now }
    ensures { result ≡ client_of Form.EndOfDay figures.now i }
{
    let at = 4 * i;
    end_of_day(
        figures[at],
        figures[at + 1],
        figures[at + 2],
        figures[at + 3],
    )
}

fn client(form: Form, figures: &[i64], i: usize) -> Exposure
    requires { figures_from form i + width_of form ≤ length figures.now }
    ensures { result ≡ client_of form figures.now i }
{
    match form {
        Form::Intraday => by_two(figures, i),
        Form::EndOfDay => by_four(figures, i),
    }
}

// Puts each client's refusal and amount.
fn put_all(form: Form, figures: &[i64], n: usize, room: &mut [u64])
    requires { (n ≡ clients_in form (length figures.now)) × (length room.old ≡ 2 * n) }
    ensures { room.new ≡ list_to (number_in_room form figures.now) (2 * n) }
{
    for i in 0..n {
        let exposure = client(form, figures, i);
        room[2 * i] = exposure.refusal as u64;
        room[2 * i + 1] = exposure.amount;
    }
}

// What each client's figures come to: two numbers a client, its refusal or 0 and its amount.
pub fn exposures(form: Form, figures: &[i64], room: &mut [u64]) -> u8
    ensures value { result ≡ list_refusal form figures.now room.old }
    ensures room_after { room.new ≡ list_room form figures.now room.old }
{
    let n = clients(form, figures.len());
    if place(form, n) != figures.len() {
        return 15;
    }
    if room.len() != 2 * n {
        return 15;
    }
    put_all(form, figures, n, room);
    0
}
