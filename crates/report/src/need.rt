// The lines of `needs`, put into a room.
ghost use Rattle.std.specs.Prelude.{◌≡◌, ◌*◌, ◌≤◌, length, get_or};
ghost use Rattle.table.specs.Words.{turned_back};
ghost use Rattle.text.specs.Inner.{Puts};
ghost use Rattle.report.specs.Reports.{accounts as Reports·accounts, need_lines, needs_text};

use crate::{all_needs, number_at};
use table::Table;
use text::put_spaced;

// Puts the lines of the rows that a list has the needs of, at most 42 bytes each, and gives how long they are.
fn put_list(room: &mut [u8], numbers: &[u16; 256], needs: &[u64]) -> usize
    requires { (length needs.now ≤ 256) × (42 * length needs.now ≤ length room.old) }
    ensures { Puts room.old 0 (need_lines (λ i. get_or numbers.now i 0) (λ i. get_or needs.now i 0)
        (length needs.now)) room.new result }
{
    let mut at: usize = 0;
    for (i, need) in needs.iter().enumerate() {
        let number = number_at(numbers, i);
        at = put_spaced(room, at, &[u64::from(number), *need]);
    }
    at
}

// Puts the lines of all rows, n of them, and gives how long they are; none where the book is not sound.
pub(crate) fn put_needs(room: &mut [u8], t: Table, n: usize) -> usize
    requires { (n ≡ Reports·accounts t.count) × (42 * n ≤ length room.old) }
    ensures { Puts room.old 0 (needs_text (turned_back t)) room.new result }
{
    let Some(needs) = all_needs(t, n) else {
        return 0;
    };
    let numbers = t.numbers;
    put_list(room, &numbers, &needs[..n])
}
