// Codes 4 to 7 where one kind alone is named: that kind's words are read and put, and no other.
// Refusals stay the documents' numbers, 0 for none: `sums.Table.first` gives them so.
ghost use Rattle.std.specs.Prelude.{◌≡◌, ◌+◌, ◌*◌, ◌≤◌, ◌<◌, set};
ghost use Rattle.rows.specs.Rows.{ceiling};
ghost use Rattle.rows.specs.Facts.{InRange};
ghost use Rattle.table.specs.Words.{row_in};
ghost use Rattle.table.specs.Facts.{Sized};
ghost use Rattle.codes.specs.Own.{deemed_under_in, Held, Receives, HandsBack, Allocates, Releases};
ghost use Rattle.codes.specs.OneKind.{kind_in, with_kind, only_kind, number_of};

use crate::own::taking;
use rows::deemed::less;
use rows::words::{with_allocated, with_received};
use rows::{CEILING, Kinds};
use table::Marks;
use table::places::{row_at, word_at};

#[derive(Clone, Copy)]
pub enum Kind {
    Cash,
    Deposits,
    Guarantees,
    Securities,
}

// A kind's number among the amounts received.
fn number_of(kind: Kind) -> usize
    ensures { (result ≡ number_of kind) × (result ≤ 3) }
{
    match kind {
        Kind::Cash => 0,
        Kind::Deposits => 1,
        Kind::Guarantees => 2,
        Kind::Securities => 3,
    }
}

fn kind_in(k: Kinds, kind: Kind) -> u64
    ensures { result ≡ kind_in k kind }
{
    match kind {
        Kind::Cash => k.cash,
        Kind::Deposits => k.deposits,
        Kind::Guarantees => k.guarantees,
        Kind::Securities => k.securities,
    }
}

fn with_kind(k: Kinds, kind: Kind, x: u64) -> Kinds
    ensures { result ≡ with_kind k kind x }
{
    let mut new = k;
    match kind {
        Kind::Cash => {
            new.cash = x;
        }
        Kind::Deposits => {
            new.deposits = x;
        }
        Kind::Guarantees => {
            new.guarantees = x;
        }
        Kind::Securities => {
            new.securities = x;
        }
    }
    new
}

// One received amount put anew: in the row, which is lent to its setter, and from it in its place.
fn put_received(marks: &Marks, w: &mut [u64; 2560], i: usize, kind: Kind, x: u64)
    requires { i < 256 }
    ensures { w.new ≡ set w.old (256 * number_of kind + i) x }
{
    let row = row_at(marks, w, i);
    let new = with_received(row, with_kind(row.received, kind, x));
    let at = 256 * number_of(kind) + i;
    w[at] = kind_in(new.received, kind);
}

fn put_allocated(marks: &Marks, w: &mut [u64; 2560], i: usize, kind: Kind, x: u64)
    requires { i < 256 }
    ensures { w.new ≡ set w.old (256 * (4 + number_of kind) + i) x }
{
    let row = row_at(marks, w, i);
    let new = with_allocated(row, with_kind(row.allocated, kind, x));
    let at = 256 * (4 + number_of(kind)) + i;
    w[at] = kind_in(new.allocated, kind);
}

// 4
pub(crate) fn receive_kind(marks: &Marks, w: &mut [u64; 2560], i: usize, kind: Kind, x: u64) -> u8
    requires { Sized marks.now w.old × (i < 256) × InRange (row_in marks.now w.old i) × (x ≤ ceiling) }
    ensures { Receives marks.now w.old i (only_kind kind x) result w.new }
{
    let sum = word_at(w, number_of(kind), i) + x;
    if CEILING < sum {
        return 10;
    }
    put_received(marks, w, i, kind, sum);
    0
}

// 5
pub(crate) fn hand_back_kind(marks: &Marks, w: &mut [u64; 2560], i: usize, kind: Kind, x: u64) -> u8
    requires { Sized marks.now w.old × (i < 256) }
    ensures { HandsBack marks.now w.old i (only_kind kind x) result w.new }
{
    let number = number_of(kind);
    let had = word_at(w, number, i);
    if less(had, word_at(w, 4 + number, i)) < x {
        return 11;
    }
    put_received(marks, w, i, kind, less(had, x));
    0
}

// 6
pub(crate) fn allocate_kind(marks: &Marks, w: &mut [u64; 2560], i: usize, kind: Kind, x: u64) -> u8
    requires { Sized marks.now w.old × (i < 256) × InRange (row_in marks.now w.old i) × (x ≤ ceiling) }
    ensures { Allocates marks.now w.old i (only_kind kind x) result w.new }
{
    let number = number_of(kind);
    let had = word_at(w, 4 + number, i);
    if less(word_at(w, number, i), had) < x {
        return 11;
    }
    put_allocated(marks, w, i, kind, had + x);
    0
}

// 7
pub(crate) fn release_kind(
    marks: &Marks,
    w: &mut [u64; 2560],
    needs: &[u64; 256],
    on: bool,
    i: usize,
    kind: Kind,
    x: u64,
) -> u8
    requires { Held marks.now w.old (deemed_under_in w.old needs.now) i }
    ensures { Releases marks.now w.old (deemed_under_in w.old needs.now) on i (only_kind kind x) result w.new }
{
    let row = row_at(marks, w, i);
    let had = kind_in(row.allocated, kind);
    if had < x {
        return 11;
    }
    let new = with_allocated(row, with_kind(row.allocated, kind, less(had, x)));
    let n = taking(w, needs, on, i, row, new);
    if n != 0 {
        return n;
    }
    put_allocated(marks, w, i, kind, less(had, x));
    0
}
