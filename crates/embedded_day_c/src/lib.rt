// The day's call exported for C (include/loft.h): it answers as the call of `embedded_day` of its name, and says the same.
// Refusals stay numbers: C is given them.
#![tactic(auto)]

ghost use Rattle.std.specs.Prelude.{◌≡◌};
ghost use Rattle.embedded_day.specs.Day.{day_refusal, day_book, day_answers, day_told};

#[unsafe(no_mangle)]
pub extern "C" fn loft_day(
    book: &mut [u8],
    piece: &[u8],
    most: u64,
    answers: &mut [u16],
    told: &mut [u64],
) -> u8
    ensures value { result ≡ day_refusal book.old piece.now most answers.old told.old }
    ensures book_after { book.new ≡ day_book book.old piece.now most answers.old told.old }
    ensures answers_after { answers.new ≡ day_answers book.old piece.now most answers.old told.old }
    ensures told_after { told.new ≡ day_told book.old piece.now most answers.old told.old }
{
    embedded_day::loft_day(book, piece, most, answers, told)
}
