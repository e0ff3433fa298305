// A turn of a reader: one that stands at a place looks, and is asked for the next record.
ghost use Rattle.std.specs.Prelude.{◌≡◌};
ghost use Rattle.cases.specs.Turns.{turn_of};

use dayfile::{Read, reader};

// What the reader sees, what it gives, and its place then.
#[derive(Clone, Copy)]
pub struct Turn {
    pub seen: Read,
    pub given: Read,
    pub place: usize,
}

pub fn take_turn(piece: &[u8], place: usize) -> Turn
    ensures { result ≡ turn_of piece.now place }
{
    let mut r = reader::new(piece);
    r.place = place;
    let seen = reader::peek(r);
    let given = reader::next(&mut r);
    Turn {
        seen,
        given,
        place: r.place,
    }
}
