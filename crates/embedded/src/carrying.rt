// A record carried out on a book's bytes.
ghost use Rattle.std.specs.Prelude.{true, ◌≡◌, length};
ghost use Rattle.embedded.specs.Records.{record_of};
ghost use Rattle.embedded.specs.Carrying.{are_fit, carried_refusal, carried_book, carried_answer};

use crate::rooms::{put_answer, record_of, refusal_in};
use desk::Record;
use lent::{book_in, put_back, unfit};

// The desk's 1 is the only one of its refusals that leaves everything: the book is tested once.
fn carry(book: &mut [u8], r: Record, answer: &mut [u16]) -> u8
    requires { length answer.old ≡ 5 }
    ensures value { result ≡ carried_refusal book.old true r }
    ensures book_after { book.new ≡ carried_book book.old true r }
    ensures answer_after { answer.new ≡ carried_answer book.old true r answer.old }
{
    let held = book_in(book);
    if !held.is_book {
        return 1;
    }
    let table = held.table;
    let done = desk::carry_out(table, r);
    let told = done.answer;
    let outcome = told.outcome;
    let refusal = refusal_in(outcome);
    if refusal == 1 {
        return 1;
    }
    let after = done.table;
    put_back(book, after);
    put_answer(answer, told);
    refusal
}

// A record handed over as values. The lists are looked at first, so that nothing is put where one is too short.
pub fn loft_carry_out(
    book: &mut [u8],
    serial: u16,
    code: u8,
    named: u8,
    account: u16,
    amounts: &[u64],
    answer: &mut [u16],
) -> u8
    ensures value { result ≡ carried_refusal book.old (are_fit amounts.now answer.old)
        (record_of serial code named account amounts.now) }
    ensures book_after { book.new ≡ carried_book book.old (are_fit amounts.now answer.old)
        (record_of serial code named account amounts.now) }
    ensures answer_after { answer.new ≡ carried_answer book.old (are_fit amounts.now answer.old)
        (record_of serial code named account amounts.now) answer.old }
{
    if amounts.len() != 6 {
        return unfit(book);
    }
    if answer.len() != 5 {
        return unfit(book);
    }
    carry(
        book,
        record_of(serial, code, named, account, amounts),
        answer,
    )
}
