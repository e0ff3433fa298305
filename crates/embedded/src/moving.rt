// Retired rows moved to an archive, and a book taken over.
ghost use Rattle.std.specs.Prelude.{◌≡◌};
ghost use Rattle.embedded.specs.Moving.{archive_refused, archive_book, archive_entries, archive_moved, take_over_refused, taken_over_book};

use lent::{book_in, put_back};

// The archive's own call leaves the entries with a refusal; the book and the number are put only without one.
pub fn loft_archive(book: &mut [u8], entries: &mut [u16], moved: &mut u16) -> u8
    ensures value { result ≡ archive_refused book.old entries.old }
    ensures book_after { book.new ≡ archive_book book.old entries.old }
    ensures entries_after { entries.new ≡ archive_entries book.old entries.old }
    ensures moved_after { moved.new ≡ archive_moved book.old entries.old moved.old }
{
    let held = book_in(book);
    if !held.is_book {
        return 1;
    }
    let table = held.table;
    let got = archival::archive(table, entries);
    if got.refusal != 0 {
        return got.refusal;
    }
    let after = got.table;
    put_back(book, after);
    *moved = got.moved;
    0
}

// The book by the new rule (K7).
pub fn loft_take_over(book: &mut [u8]) -> u8
    ensures value { result ≡ take_over_refused book.old }
    ensures book_after { book.new ≡ taken_over_book book.old }
{
    let held = book_in(book);
    if !held.is_book {
        return 1;
    }
    let table = held.table;
    let taken = book::take_over(table);
    if taken.refusal != 0 {
        return taken.refusal;
    }
    let after = taken.table;
    put_back(book, after);
    0
}
