// The gaps that retired rows leave are closed, on the table's words in place (K11).
#![tactic(auto)]

ghost use Rattle.std.specs.Prelude.{◌≡◌, ◌<◌, get_or};
ghost use Rattle.table.specs.Words.{turned_back};
ghost use Rattle.table.specs.Facts.{Sized};
ghost use Rattle.gaps.specs.Gaps.{with_tm, archived};
ghost use Rattle.gaps.specs.Inner.{slid, RowSlid, Closable};

use rows::Row;
use rows::words::no_row;
use table::places::{put_row, row_at};
use table::{Marks, Table};

fn with_tm(r: Row, tm: u16) -> Row
    ensures { result ≡ with_tm r tm }
{
    Row { tm, ..r }
}

// Row i is taken out, and put at place k where it is live; `to` has the place of its TM.
fn slide_row(marks: &mut Marks, w: &mut [u64; 2560], to: &[u16; 256], k: usize, i: usize) -> bool
    requires { Sized marks.old w.old × (i < 256) × (k < 256) × (get_or marks.old.tm i 0 < 256) }
    ensures { RowSlid marks.old w.old to.now k i result marks.new w.new }
{
    let row = row_at(marks, w, i);
    put_row(marks, w, i, no_row());
    if row.live {
        put_row(marks, w, k, with_tm(row, to[row.tm as usize]));
    }
    row.live
}

// What goes with row i, its mode, its kept need or its number, is taken out and goes to place k where it is kept.
fn slide<T: Copy>(xs: &mut [T; 256], blank: T, kept: bool, k: usize, i: usize)
    requires { (i < 256) × (k < 256) }
    ensures { xs.new ≡ slid kept xs.old k i (get_or xs.old i blank) blank }
{
    let x = xs[i];
    xs[i] = blank;
    if kept {
        xs[k] = x;
    }
}

// Every live row goes to the first free place, in rising order; what it leaves is blank. The count is that of the rows left.
pub fn close_gaps(t: &mut Table)
    requires sized { Sized t.old.marks t.old.amounts }
    requires closable { Closable (turned_back t.old) }
    ensures sized_2 { Sized t.new.marks t.new.amounts }
    ensures numbers_after { turned_back t.new ≡ archived (turned_back t.old) }
{
    let mut to = [0u16; 256];
    let mut k: u16 = 0;
    for i in 0..t.count as usize {
        to[i] = k;
        let kept = slide_row(&mut t.marks, &mut t.amounts, &to, k as usize, i);
        slide(&mut t.modes, false, kept, k as usize, i);
        slide(&mut t.needs, 0, kept, k as usize, i);
        slide(&mut t.numbers, 0, kept, k as usize, i);
        k += u16::from(kept);
    }
    t.count = k;
}
