// An account's words read from their places and put there.
ghost use Rattle.std.specs.Prelude.{◌≡◌, ◌≤◌, ◌<◌, set};
ghost use Rattle.table.specs.Words.{word_at, kinds_from, row_in, rows_of};
ghost use Rattle.table.specs.Inner.{put_kinds, put_marks, put_row};

use super::Marks;
use rows::{Kinds, Row};

// Amount k of account i.
pub fn word_at(w: &[u64; 2560], k: usize, i: usize) -> u64
    requires { (k < 10) × (i < 256) }
    ensures { result ≡ word_at w.now k i }
{
    w[256 * k + i]
}

// Four amounts from number k on.
pub fn kinds_at(w: &[u64; 2560], k: usize, i: usize) -> Kinds
    requires { (k ≤ 6) × (i < 256) }
    ensures { result ≡ kinds_from (λ j. word_at w.now j i) k }
{
    Kinds {
        cash: w[256 * k + i],
        deposits: w[256 * (k + 1) + i],
        guarantees: w[256 * (k + 2) + i],
        securities: w[256 * (k + 3) + i],
    }
}

// An account's row, gathered.
pub fn row_at(marks: &Marks, w: &[u64; 2560], i: usize) -> Row
    requires { i < 256 }
    ensures { result ≡ row_in marks.now w.now i }
{
    Row {
        sort: marks.sort[i],
        live: marks.live[i],
        tm: marks.tm[i],
        received: Kinds {
            cash: w[256 * 0 + i],
            deposits: w[256 * 1 + i],
            guarantees: w[256 * 2 + i],
            securities: w[256 * 3 + i],
        },
        allocated: Kinds {
            cash: w[256 * 4 + i],
            deposits: w[256 * 5 + i],
            guarantees: w[256 * 6 + i],
            securities: w[256 * 7 + i],
        },
        pledged: w[256 * 8 + i],
        margin: w[256 * 9 + i],
    }
}

// The old order's rows, all of them gathered.
pub fn rows_of(marks: &Marks, w: &[u64; 2560]) -> [Row; 256]
    ensures { result ≡ rows_of marks.now w.now }
{
    let blank = rows::words::no_row();
    let mut table = [blank; 256];
    for i in 0..256 {
        table[i] = row_at(marks, w, i);
    }
    table
}

pub fn put_kinds(w: &mut [u64; 2560], k: usize, i: usize, x: Kinds)
    requires { (k ≤ 6) × (i < 256) }
    ensures { w.new ≡ put_kinds w.old k i x }
{
    w[256 * k + i] = x.cash;
    w[256 * (k + 1) + i] = x.deposits;
    w[256 * (k + 2) + i] = x.guarantees;
    w[256 * (k + 3) + i] = x.securities;
}

pub fn put_amounts(w: &mut [u64; 2560], i: usize, r: Row)
    requires { i < 256 }
    ensures { w.new ≡ put_row w.old i r }
{
    w[256 * 0 + i] = r.received.cash;
    w[256 * 1 + i] = r.received.deposits;
    w[256 * 2 + i] = r.received.guarantees;
    w[256 * 3 + i] = r.received.securities;
    w[256 * 4 + i] = r.allocated.cash;
    w[256 * 5 + i] = r.allocated.deposits;
    w[256 * 6 + i] = r.allocated.guarantees;
    w[256 * 7 + i] = r.allocated.securities;
    w[256 * 8 + i] = r.pledged;
    w[256 * 9 + i] = r.margin;
}

pub fn put_row(marks: &mut Marks, w: &mut [u64; 2560], i: usize, r: Row)
    requires { i < 256 }
    ensures marks_after { marks.new ≡ put_marks marks.old i r }
    ensures w_after { w.new ≡ put_row w.old i r }
{
    marks.sort[i] = r.sort;
    marks.live[i] = r.live;
    marks.tm[i] = r.tm;
    put_amounts(w, i, r);
}
