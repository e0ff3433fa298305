// How much would have passed: the largest amount with which a record is carried out.
#![tactic(auto)]

ghost use Rattle.std.specs.Prelude.{◌≡◌};
ghost use Rattle.table.specs.Words.{turned_back};
ghost use Rattle.passing.specs.Most.{most_of};

pub use dayfile::Record;
pub use passing::Largest;
use passing::{most_in, refused};
pub use table::{Marks, Table};

// The refusal number or 0, and the largest amount, whatever the record's serial and its amounts are.
pub fn most(t: Table, record: Record) -> Largest
    ensures { result ≡ most_of (turned_back t) «record» }
{
    if !book::is_sound(t) {
        return refused(1);
    }
    let count = t.count;
    most_in(
        &t.marks, &t.amounts, &t.modes, &t.needs, &t.numbers, count, record,
    )
}
