// The desk: a record is carried out or refused.
#![tactic(auto)]

ghost use Rattle.std.specs.Prelude.{◌≡◌};
ghost use Rattle.book.specs.Facts.{Sound};
ghost use Rattle.rules.specs.Numbered.{verdict_of, given_of};
ghost use Rattle.desk.specs.Answers.{refusal_in, given_in, nobody};
ghost use Rattle.desk.specs.Steps.{step_of, next_of, next_refusal, next_given};
ghost use Rattle.desk.specs.Over.{over_done, over_next};
ghost use Rattle.desk.specs.Inner.{outcome_by};
ghost use Rattle.table.specs.Words.{turned, turned_back};

use dayfile::Found;
pub use dayfile::Record;
pub use rows::Kinds;
use steps::Lent;
use steps::entry::{enter, leave};
pub use table::{Marks, Table};

// What became of a record; the end is no refusal.
#[derive(Clone, Copy)]
pub enum Outcome {
    CarriedOut,
    Opened(u16),
    Refused(u8),
    End,
}

#[derive(Clone, Copy)]
pub struct Answer {
    pub serial: u16,
    pub code: u8,
    pub account: u16,
    pub outcome: Outcome,
}

// The answer to a record, and the table after it.
#[derive(Clone, Copy)]
pub struct Carried {
    pub answer: Answer,
    pub table: Table,
}

// The same with the place after it.
#[derive(Clone, Copy)]
pub struct CarriedNext {
    pub answer: Answer,
    pub table: Table,
    pub place: usize,
}

fn about_nobody(outcome: Outcome) -> Answer
    ensures { result ≡ nobody outcome }
{
    Answer {
        serial: 0,
        code: 0,
        account: 0,
        outcome,
    }
}

// By document 01's numbers: the refusal or 0, and the number given or 0.
fn outcome_of(refusal: u8, given: u16) -> Outcome
    ensures { result ≡ outcome_by refusal given }
{
    if refusal != 0 {
        return Outcome::Refused(refusal);
    }
    if given != 0 {
        return Outcome::Opened(given);
    }
    Outcome::CarriedOut
}

// A record at a sound table.
fn step_at(t: Table, r: Record) -> Carried
    requires { Sound (turned_back t) }
    ensures { result ≡ over_done (step_of (turned_back t) r) }
{
    let marks = t.marks;
    let words = t.amounts;
    let was = t.modes;
    let needs = t.needs;
    let numbers = t.numbers;
    let mut l = Lent {
        marks,
        words,
        kept: [0; 256],
        modes: was,
        needs,
        numbers,
        excess: [0; 256],
    };
    let at = enter(&mut l, t.count, t.serial, t.next);
    let gone = steps::step(&mut l, &was, at, r);
    let outcome = outcome_of(gone.refusal, gone.given);
    let answer = Answer {
        serial: r.serial,
        code: r.code,
        account: r.account,
        outcome,
    };
    let table = leave(&l, &was, steps::on(at, gone));
    Carried { answer, table }
}

// Nobody is named, and the table stays.
fn stays(t: Table, outcome: Outcome) -> Carried
    ensures { result ≡ record { answer = nobody outcome; table = turned (turned_back t) } }
{
    let table = table::same(t);
    let answer = about_nobody(outcome);
    Carried { answer, table }
}

fn at(c: Carried, place: usize) -> CarriedNext
    ensures { result ≡ record { answer = c.answer; table = c.table; place = place } }
{
    let answer = c.answer;
    let table = c.table;
    CarriedNext {
        answer,
        table,
        place,
    }
}

// A record handed over as values.
pub fn carry_out(t: Table, record: Record) -> Carried
    ensures value { result ≡ over_done (step_of (turned_back t) «record») }
    ensures outcome_value { refusal_in result.answer.outcome ≡ verdict_of (turned_back t) «record» }
    ensures outcome_value_2 { given_in result.answer.outcome ≡ given_of (turned_back t) «record» }
{
    if !book::is_sound(t) {
        return stays(t, Outcome::Refused(1));
    }
    step_at(t, record)
}

// The record at a place of a piece of the day file.
pub fn carry_out_next(t: Table, piece: &[u8], place: usize) -> CarriedNext
    ensures value { result ≡ over_next (next_of (turned_back t) piece.now place) }
    ensures outcome_value { refusal_in result.answer.outcome ≡ next_refusal (turned_back t) piece.now place }
    ensures outcome_value_2 { given_in result.answer.outcome ≡ next_given (turned_back t) piece.now place }
{
    if !book::is_sound(t) {
        return at(stays(t, Outcome::Refused(1)), place);
    }
    let found = dayfile::found_at(piece, place);
    match found {
        Found::End => at(stays(t, Outcome::End), place),
        Found::Cut => at(stays(t, Outcome::Refused(2)), place),
        Found::Whole(record, next) => at(step_at(t, record), next),
    }
}
