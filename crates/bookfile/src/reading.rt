// The book that bytes are.
ghost use Rattle.std.specs.Prelude.{◌≡◌, length};
ghost use Rattle.bookfile.specs.Versions.{size_of};
ghost use Rattle.bookfile.specs.Reading.{book_by, read_of};
ghost use Rattle.bookfile.specs.Inner.{version_of};

use crate::listed::{amounts, needs, sorts, tms, yeses};
use crate::numbered::{next_in, numbers_in};
use crate::tested::is_of;
use crate::{Held, SIZE, Version};
use book::fresh;
use numbers::number2;
use table::{Marks, Table};

// The two versions differ in length.
fn version_of(piece: &[u8]) -> Version
    ensures { result ≡ version_of piece.now }
{
    if piece.len() == SIZE {
        Version::Two
    } else {
        Version::One
    }
}

fn book_by(v: Version, piece: &[u8]) -> Table
    requires { length piece.now ≡ size_of v }
    ensures { result ≡ book_by v piece.now }
{
    let count = number2(piece, 4);
    Table {
        count,
        serial: number2(piece, 6),
        marks: Marks {
            sort: sorts(v, piece),
            live: yeses(v, piece, 1),
            tm: tms(v, piece),
        },
        modes: yeses(v, piece, 84),
        needs: needs(v, piece),
        amounts: amounts(v, piece),
        next: next_in(v, piece, count),
        numbers: numbers_in(v, piece, count),
    }
}

// The book, or that there is none. Whether a book is sound isn't asked.
pub fn read(piece: &[u8]) -> Held
    ensures { result ≡ read_of piece.now }
{
    let v = version_of(piece);
    if is_of(v, piece) {
        let table = book_by(v, piece);
        return Held {
            is_book: true,
            table,
        };
    }
    let table = fresh();
    Held {
        is_book: false,
        table,
    }
}
