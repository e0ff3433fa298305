// A fresh book's bytes, and whether bytes are a sound book.
ghost use Rattle.std.specs.Prelude.{◌≡◌};
ghost use Rattle.rows.specs.Rows.{fresh_book};
ghost use Rattle.table.specs.Words.{turned};
ghost use Rattle.bookfile.specs.Written.{wrote_of, room_after};
ghost use Rattle.lent.specs.Held.{sound_in};

// Whether the bytes are a book of version 2 that is sound.
pub fn loft_is_sound(book: &[u8]) -> bool
    ensures { result ≡ sound_in book.now }
{
    lent::sound_in(book)
}

// A fresh book. The writer refuses bytes that are fewer or more.
pub fn loft_fresh(book: &mut [u8]) -> u8
    ensures value { result ≡ wrote_of book.old }
    ensures book_after { book.new ≡ room_after (turned fresh_book) book.old }
{
    bookfile::write(book::fresh(), book)
}
