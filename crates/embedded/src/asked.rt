// What a book's bytes are asked.
ghost use Rattle.std.specs.Prelude.{◌≡◌, length};
ghost use Rattle.bookfile.specs.Written.{yes_no};
ghost use Rattle.embedded.specs.Asked.{listed, standing_refusal, standing_after, largest_in, most_after, needs_refused, needs_after, statement_refusal};

use crate::rooms::bare_record;
use book::Figures;
use lent::{book_in, unfit};

fn one_if(yes: bool) -> u64
    ensures { result ≡ yes_no yes }
{
    u64::from(yes)
}

fn put_figures(figures: &mut [u64], f: Figures)
    requires { length figures.old ≡ 7 }
    ensures { figures.new ≡ listed f }
{
    figures.copy_from_slice(&[
        f.collateral,
        f.need,
        f.blocked,
        f.deemed,
        f.free,
        one_if(f.mode),
        f.shortfall,
    ]);
}

// An account's seven figures, put where there are none of the refusals 1, 15, 7.
pub fn loft_standing(book: &[u8], account: u16, figures: &mut [u64]) -> u8
    ensures value { result ≡ standing_refusal book.now account figures.old }
    ensures figures_after { figures.new ≡ standing_after book.now account figures.old }
{
    if figures.len() != 7 {
        return unfit(book);
    }
    let held = book_in(book);
    if !held.is_book {
        return 1;
    }
    let table = held.table;
    let f = book::standing(table, account);
    if f.refusal != 0 {
        return f.refusal;
    }
    put_figures(figures, f);
    0
}

// The largest amount with which such a record is carried out; neither its serial nor its amounts are looked at.
pub fn loft_most(book: &[u8], code: u8, named: u8, account: u16, amount: &mut u64) -> u8
    ensures value { result ≡ (largest_in book.now code named account).refusal }
    ensures amount_after { amount.new ≡ most_after book.now code named account amount.old }
{
    let held = book_in(book);
    if !held.is_book {
        return 1;
    }
    let table = held.table;
    let largest = most::most(table, bare_record(0, code, named, account));
    if largest.refusal != 0 {
        return largest.refusal;
    }
    *amount = largest.amount;
    0
}

// Every account's need: the book's own call refuses 15 too.
pub fn loft_needs(book: &[u8], needs: &mut [u64]) -> u8
    ensures value { result ≡ needs_refused book.now needs.old }
    ensures needs_after { needs.new ≡ needs_after book.now needs.old }
{
    let held = book_in(book);
    if !held.is_book {
        return 1;
    }
    let table = held.table;
    book::needs(table, needs)
}

// A TM's statement held against the book.
pub fn loft_statement(book: &[u8], tm: u16, piece: &[u8]) -> u8
    ensures { result ≡ statement_refusal book.now tm piece.now }
{
    let held = book_in(book);
    if !held.is_book {
        return 1;
    }
    let table = held.table;
    let finding = statement::check(table, tm, piece);
    finding.refusal
}
