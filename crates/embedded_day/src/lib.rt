// The records of a piece carried out on a book's bytes.
// Refusals stay numbers: C is given them.
#![tactic(auto)]

ghost use Rattle.std.specs.Prelude.{◌≡◌, [], ◌∷◌, length};
ghost use Rattle.embedded_day.specs.Day.{word_number, day_refusal, day_book, day_answers, day_told};

use lent::{book_in, put_back, unfit};
use run::Closing;

fn word_number(word: Closing) -> u64
    ensures { result ≡ word_number word }
{
    match word {
        Closing::End => 0,
        Closing::Cut => 1,
        Closing::Long => 2,
        Closing::Unsound => 3,
    }
}

fn put_told(told: &mut [u64], word: u64, place: usize, read: u64, done: u64)
    requires { length told.old ≡ 4 }
    ensures { told.new ≡ word ∷ place ∷ read ∷ done ∷ [] }
{
    told[0] = word;
    told[1] = place as u64;
    told[2] = read;
    told[3] = done;
}

// The records of a piece, as many as there is room for. The run puts the answers itself, and leaves them at an unsound book.
pub fn loft_day(
    book: &mut [u8],
    piece: &[u8],
    most: u64,
    answers: &mut [u16],
    told: &mut [u64],
) -> u8
    ensures value { result ≡ day_refusal book.old piece.now most answers.old told.old }
    ensures book_after { book.new ≡ day_book book.old piece.now most answers.old told.old }
    ensures answers_after { answers.new ≡ day_answers book.old piece.now most answers.old told.old }
    ensures told_after { told.new ≡ day_told book.old piece.now most answers.old told.old }
{
    if told.len() != 4 {
        return unfit(book);
    }
    let held = book_in(book);
    if !held.is_book {
        return 1;
    }
    let table = held.table;
    let ended = run::day_with_numbers(table, piece, most, answers);
    let closing = ended.closing;
    let word = word_number(closing);
    if word == 3 {
        return 1;
    }
    let after = ended.table;
    put_back(book, after);
    put_told(told, word, ended.place, ended.read, ended.done);
    0
}
