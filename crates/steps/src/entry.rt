// The arrays of a sound table are entered, gone through by steps, and left.
ghost use Rattle.std.specs.Prelude.{true, ◌≡◌};
ghost use Rattle.table.specs.Words.{turned_back};
ghost use Rattle.steps.specs.Steps.{book_in};
ghost use Rattle.steps.specs.Beside.{Enterable, Enters};

use crate::following::collaterals;
use crate::{At, Lent, modes_of};
use table::Table;
use table::modes::look_all;
use table::needs::deemed_under;

// Fills what stands beside a table's own arrays, whose modes are those that it was handed over with, and tells where its book stands. The arrays are lent:
// a table handed over, or lent whole, would stand in the caller's frame once more.
pub fn enter(l: &mut Lent, count: u16, serial: u16, next: u32) -> At
    requires { Enterable count l.old.marks l.old.words }
    ensures at { result ≡ record { count = count; serial = serial; next = next; waiting = true } }
    ensures enters { Enters count l.old l.new }
{
    l.kept = collaterals(&l.words);
    l.excess = [0; 256];
    deemed_under(&l.marks, &l.words, count, true, &mut l.excess);
    l.modes = look_all(&l.marks, &l.words, count, &l.excess, &l.modes);
    At {
        count,
        serial,
        next,
        waiting: true,
    }
}

// The table whose book the arrays are. `was` are the modes that it was handed over with.
pub fn leave(l: &Lent, was: &[bool; 256], at: At) -> Table
    ensures { turned_back result ≡ book_in at was.now l.now }
{
    Table {
        count: at.count,
        serial: at.serial,
        marks: l.marks,
        modes: modes_of(l, was, at),
        needs: l.needs,
        amounts: l.words,
        next: at.next,
        numbers: l.numbers,
    }
}
