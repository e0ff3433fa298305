// The reader: a lent piece of the day file and a place in it. Each call takes the reader apart and leaves the work to a function on the piece.
ghost use Rattle.std.specs.Prelude.{◌≡◌};
ghost use Rattle.dayfile.specs.Reading.{place_after};
ghost use Rattle.dayfile.specs.Reader.{start_of, read_by, moved_to};
ghost use Rattle.dayfile.specs.Taking.{took_at};

use crate::Read;
use crate::reading::answer_at;

#[derive(Clone, Copy)]
pub struct Reader<'a> {
    pub piece: &'a [u8],
    pub place: usize,
}

// What was read, with the place after it.
// Not a pair: `took_at` is this record.
#[derive(Clone, Copy)]
struct Took {
    read: Read,
    place: usize,
}

// The end and a cut leave the place just as it was.
fn place_after(read: Read, place: usize) -> usize
    ensures { result ≡ place_after read place }
{
    match read {
        Read::End => place,
        Read::Cut => place,
        Read::Good(_, next) => next,
        Read::Bad {
            reason: _,
            serial: _,
            code: _,
            account: _,
            next,
        } => next,
    }
}

fn next_at(piece: &[u8], place: usize) -> Took
    ensures { result ≡ took_at piece.now place }
{
    let read = answer_at(piece, place);
    Took {
        read,
        place: place_after(read, place),
    }
}

// A reader at the start of a piece.
pub fn new<'a>(piece: &'a [u8]) -> Reader<'a>
    ensures { result ≡ start_of piece.entry }
{
    Reader { piece, place: 0 }
}

// What stands at the reader's place; the reader is a copy, and the caller's stays.
pub fn peek<'a>(r: Reader<'a>) -> Read
    ensures { result ≡ read_by r.entry }
{
    answer_at(r.piece, r.place)
}

// The same, and the reader moves past the record.
pub fn next<'s, 'a>(r: &'s mut Reader<'a>) -> Read
    ensures answer { result ≡ read_by r.old }
    ensures reader { r.new ≡ moved_to r.old (place_after result r.old.place) }
{
    let t = next_at(r.piece, r.place);
    r.place = t.place;
    t.read
}
