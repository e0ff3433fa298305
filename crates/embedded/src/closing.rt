// A close-out on a book's bytes.
ghost use Rattle.std.specs.Prelude.{◌≡◌};
ghost use Rattle.embedded.specs.Closing.{closed_in, pays_after, total_after};

use lent::book_in;

// Who pays what; the close-out's own call refuses 15 too, and puts the amounts.
pub fn loft_close_out(book: &[u8], losses: &[u64], pays: &mut [u64], total: &mut u64) -> u8
    ensures value { result ≡ (closed_in book.now losses.now pays.old).refusal }
    ensures pays_after { pays.new ≡ pays_after book.now losses.now pays.old }
    ensures total_after { total.new ≡ total_after book.now losses.now pays.old total.old }
{
    let held = book_in(book);
    if !held.is_book {
        return 1;
    }
    let table = held.table;
    let closed = closeout::close_out(table, losses, pays);
    if closed.refusal != 0 {
        return closed.refusal;
    }
    *total = closed.total;
    0
}
