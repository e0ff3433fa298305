// The book's calls exported for C (include/loft.h): each answers as the call of `embedded` of its name, and says the same.
// Refusals stay numbers: C is given them.
#![tactic(auto)]

ghost use Rattle.std.specs.Prelude.{◌≡◌};
ghost use Rattle.bookfile.specs.Written.{wrote_of, room_after};
ghost use Rattle.lent.specs.Held.{sound_in};
ghost use Rattle.rows.specs.Rows.{fresh_book};
ghost use Rattle.table.specs.Words.{turned};
ghost use Rattle.embedded.specs.Asked.{standing_refusal, standing_after, largest_in, most_after, needs_refused, needs_after, statement_refusal};
ghost use Rattle.embedded.specs.Carrying.{are_fit, carried_refusal, carried_book, carried_answer};
ghost use Rattle.embedded.specs.Closing.{closed_in, pays_after, total_after};
ghost use Rattle.embedded.specs.Margins.{margin_refusal, margin_room};
ghost use Rattle.embedded.specs.Moving.{archive_refused, archive_book, archive_entries, archive_moved, take_over_refused, taken_over_book};
ghost use Rattle.embedded.specs.Records.{record_of};
ghost use Rattle.embedded.specs.Writing.{are_six, write_refusal, write_room, write_length, read_refusal, read_numbers};

#[unsafe(no_mangle)]
pub extern "C" fn loft_fresh(book: &mut [u8]) -> u8
    ensures value { result ≡ wrote_of book.old }
    ensures book_after { book.new ≡ room_after (turned fresh_book) book.old }
{
    embedded::loft_fresh(book)
}

#[unsafe(no_mangle)]
pub extern "C" fn loft_is_sound(book: &[u8]) -> bool
    ensures { result ≡ sound_in book.now }
{
    embedded::loft_is_sound(book)
}

#[unsafe(no_mangle)]
pub extern "C" fn loft_standing(book: &[u8], account: u16, figures: &mut [u64]) -> u8
    ensures value { result ≡ standing_refusal book.now account figures.old }
    ensures figures_after { figures.new ≡ standing_after book.now account figures.old }
{
    embedded::loft_standing(book, account, figures)
}

#[unsafe(no_mangle)]
pub extern "C" fn loft_carry_out(
    book: &mut [u8],
    serial: u16,
    code: u8,
    named: u8,
    account: u16,
    amounts: &[u64],
    answer: &mut [u16],
) -> u8
    ensures value { result ≡ carried_refusal book.old (are_fit amounts.now answer.old)
        (record_of serial code named account amounts.now) }
    ensures book_after { book.new ≡ carried_book book.old (are_fit amounts.now answer.old)
        (record_of serial code named account amounts.now) }
    ensures answer_after { answer.new ≡ carried_answer book.old (are_fit amounts.now answer.old)
        (record_of serial code named account amounts.now) answer.old }
{
    embedded::loft_carry_out(book, serial, code, named, account, amounts, answer)
}

#[unsafe(no_mangle)]
pub extern "C" fn loft_most(book: &[u8], code: u8, named: u8, account: u16, amount: &mut u64) -> u8
    ensures value { result ≡ (largest_in book.now code named account).refusal }
    ensures amount_after { amount.new ≡ most_after book.now code named account amount.old }
{
    embedded::loft_most(book, code, named, account, amount)
}

#[unsafe(no_mangle)]
pub extern "C" fn loft_needs(book: &[u8], needs: &mut [u64]) -> u8
    ensures value { result ≡ needs_refused book.now needs.old }
    ensures needs_after { needs.new ≡ needs_after book.now needs.old }
{
    embedded::loft_needs(book, needs)
}

#[unsafe(no_mangle)]
pub extern "C" fn loft_close_out(
    book: &[u8],
    losses: &[u64],
    pays: &mut [u64],
    total: &mut u64,
) -> u8
    ensures value { result ≡ (closed_in book.now losses.now pays.old).refusal }
    ensures pays_after { pays.new ≡ pays_after book.now losses.now pays.old }
    ensures total_after { total.new ≡ total_after book.now losses.now pays.old total.old }
{
    embedded::loft_close_out(book, losses, pays, total)
}

#[unsafe(no_mangle)]
pub extern "C" fn loft_margin(
    serial: u16,
    account: u16,
    initial: u64,
    products: &[u8],
    sides: &[u8],
    notionals: &[u64],
    figures: &[i64],
    record: &mut [u8],
) -> u8
    ensures value { result ≡ margin_refusal serial account initial products.now sides.now notionals.now
        figures.now «record».old }
    ensures record_after { «record».new ≡ margin_room serial account initial products.now sides.now notionals.now
        figures.now «record».old }
{
    embedded::loft_margin(
        serial, account, initial, products, sides, notionals, figures, record,
    )
}

#[unsafe(no_mangle)]
pub extern "C" fn loft_statement(book: &[u8], tm: u16, piece: &[u8]) -> u8
    ensures { result ≡ statement_refusal book.now tm piece.now }
{
    embedded::loft_statement(book, tm, piece)
}

#[unsafe(no_mangle)]
pub extern "C" fn loft_archive(book: &mut [u8], entries: &mut [u16], moved: &mut u16) -> u8
    ensures value { result ≡ archive_refused book.old entries.old }
    ensures book_after { book.new ≡ archive_book book.old entries.old }
    ensures entries_after { entries.new ≡ archive_entries book.old entries.old }
    ensures moved_after { moved.new ≡ archive_moved book.old entries.old moved.old }
{
    embedded::loft_archive(book, entries, moved)
}

#[unsafe(no_mangle)]
pub extern "C" fn loft_take_over(book: &mut [u8]) -> u8
    ensures value { result ≡ take_over_refused book.old }
    ensures book_after { book.new ≡ taken_over_book book.old }
{
    embedded::loft_take_over(book)
}

#[unsafe(no_mangle)]
pub extern "C" fn loft_write_record(
    serial: u16,
    code: u8,
    named: u8,
    account: u16,
    amounts: &[u64],
    room: &mut [u8],
    length: &mut usize,
) -> u8
    ensures value { result ≡ write_refusal (are_six amounts.now) (record_of serial code named account amounts.now) room.old }
    ensures room_after { room.new ≡ write_room (are_six amounts.now) (record_of serial code named account amounts.now)
        room.old }
    ensures length_after { length.new ≡ write_length (are_six amounts.now) (record_of serial code named account amounts.now)
        room.old length.old }
{
    embedded::loft_write_record(serial, code, named, account, amounts, room, length)
}

#[unsafe(no_mangle)]
pub extern "C" fn loft_read_record(piece: &[u8], place: usize, numbers: &mut [u64]) -> u8
    ensures value { result ≡ read_refusal piece.now place numbers.old }
    ensures numbers_after { numbers.new ≡ read_numbers piece.now place numbers.old }
{
    embedded::loft_read_record(piece, place, numbers)
}
