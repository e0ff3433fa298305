// The book that bytes lent by a program in another language are.
// Refusals stay numbers: C is given them.
#![tactic(auto)]

ghost use Rattle.std.specs.Prelude.{true, false, ◌≡◌, length};
ghost use Rattle.bookfile.specs.Facts.{is_two};
ghost use Rattle.bookfile.specs.Reading.{book_in};
ghost use Rattle.bookfile.specs.Written.{size, written_of};
ghost use Rattle.lent.specs.Held.{sound_in, lent_refusal};

use bookfile::{Held, SIZE, Table};

// Bytes of version 1, which the reader takes too, are shorter.
pub fn book_in(bytes: &[u8]) -> Held
    ensures { (result.is_book ≡ is_two bytes.now) × (result.is_book ≡ true → result.table ≡ book_in bytes.now) }
{
    if bytes.len() != SIZE {
        let table = book::fresh();
        return Held {
            is_book: false,
            table,
        };
    }
    bookfile::read(bytes)
}

// The book's bytes again, where they were read from.
pub fn put_back(bytes: &mut [u8], t: Table)
    requires { length bytes.old ≡ size }
    ensures { bytes.new ≡ written_of t }
{
    bookfile::write(t, bytes);
}

// Whether bytes are a book of version 2 that is sound.
pub fn sound_in(bytes: &[u8]) -> bool
    ensures { result ≡ sound_in bytes.now }
{
    let held = book_in(bytes);
    if !held.is_book {
        return false;
    }
    let table = held.table;
    book::is_sound(table)
}

// The refusal where a list beside the book isn't as long as it should be: 1 comes before 15.
pub fn unfit(bytes: &[u8]) -> u8
    ensures { result ≡ lent_refusal bytes.now false }
{
    if sound_in(bytes) { 15 } else { 1 }
}
