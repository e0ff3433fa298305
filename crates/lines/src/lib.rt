// The lines that the program prints: one for each record, and the closing one.
#![tactic(auto)]

ghost use Rattle.std.specs.Prelude.{◌≡◌, length};
ghost use Rattle.lines.specs.Lines.{closing_line_of};
ghost use Rattle.sums.specs.Room.{at_start};
ghost use Rattle.table.specs.Words.{turned_back};
ghost use Rattle.text.specs.Numbers.{lines_to};
ghost use Rattle.lines.specs.Texts.{limit_of, text_of, lined_of, fitting};

pub use records::Closing;
pub use table::{Marks, Table};
use text::line::put_lines;
use text::texts;

mod closing;

#[derive(Clone, Copy)]
pub struct Lined {
    pub table: Table,
    pub place: usize,
    pub closing: Closing,
    pub read: u64,
    pub done: u64,
    pub text: usize,
}

// How many records one call carries out at most.
fn limit(most: u64, room: &[u8]) -> u64
    ensures { result ≡ limit_of most room.now }
{
    most.min((room.len() as u64 / 32).min(2048))
}

// The records of a piece from its start, up to a stated number, with each one's line put into the room.
pub fn lines(t: Table, piece: &[u8], most: u64, room: &mut [u8]) -> Lined
    ensures value { result ≡ lined_of (turned_back t) piece.now (limit_of most room.old) }
    ensures room_after { room.new ≡ at_start (text_of (turned_back t) piece.now (limit_of most room.old)) room.old }
{
    let mut numbers = [0u16; 10240];
    let ran = run::day_with_numbers(t, piece, limit(most, room), &mut numbers);
    let mut words = [0u64; 1000];
    texts::fill(&mut words);
    let text = put_lines(&words, room, &numbers, ran.read as usize);
    Lined {
        table: ran.table,
        place: ran.place,
        closing: ran.closing,
        read: ran.read,
        done: ran.done,
        text,
    }
}

// The lines of records by their numbers, five of each, put from the room's start; gives how long they are.
pub fn lines_of_numbers(numbers: &[u16], count: usize, room: &mut [u8]) -> usize
    ensures value { result ≡ length (lines_to numbers.now (fitting count numbers.now room.old)) }
    ensures room_after { room.new ≡ at_start (lines_to numbers.now (fitting count numbers.now room.old))
        room.old }
{
    let k = count.min((numbers.len() / 5).min(room.len() / 32));
    let mut words = [0u64; 1000];
    texts::fill(&mut words);
    put_lines(&words, room, numbers, k)
}

// The line after the records' lines: how long it is, and the line in the room.
pub fn closing_line(closing: Closing, read: u64, done: u64, room: &mut [u8; 64]) -> usize
    ensures value { result ≡ length (closing_line_of closing read done) }
    ensures room_after { room.new ≡ at_start (closing_line_of closing read done) room.old }
{
    closing::put_closing(room, closing, read, done)
}
