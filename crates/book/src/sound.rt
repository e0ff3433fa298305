// The test of a sound book's rows, modes, numbers and kept needs, a sentence of 'A sound book' each, on the words in their places.
ghost use Rattle.std.specs.Prelude.{◌≡◌, false, ◌&&◌, [], ◌<◌, eqb, ltb, get_or};
ghost use Rattle.sums.specs.Sum.{all};
ghost use Rattle.sums.specs.Choice.{pick};
ghost use Rattle.rows.specs.Ranges.{no_amounts, in_range};
ghost use Rattle.table.specs.Words.{book_from, turned_back};
ghost use Rattle.book.specs.Sound.{is_top, good_sort, row_sound, good_number, numbers_sound, formed_b, kept_by, sound_b};
ghost use Rattle.book.specs.Inner.{marked, amounts_at, modes_at};

use rows::needs::slot;
use rows::ranges::{kinds_capped, kinds_within};
use rows::{CEILING, Rule};
use table::needs::needs_kept;
use table::places::{kinds_at, word_at};
use table::{Marks, Table};

// What of an account is no amount.
#[derive(Clone, Copy)]
pub(crate) struct Mark {
    pub sort: u8,
    pub live: bool,
    pub tm: u16,
}

fn mark_at(marks: &Marks, i: usize) -> Mark
    requires { i < 256 }
    ensures { result ≡ record { sort = get_or marks.now.sort i 0; live = get_or marks.now.live i false; tm = get_or marks.now.tm i 0 } }
{
    Mark {
        sort: marks.sort[i],
        live: marks.live[i],
        tm: marks.tm[i],
    }
}

fn is_top(m: Mark) -> bool
    ensures { result ≡ is_top (marked m) }
{
    (m.sort == 0) & m.live & (m.tm == 0)
}

// The sort of an account other than 0, where t is the one that it names as its TM.
fn good_sort(i: usize, m: Mark, t: Mark) -> bool
    ensures { result ≡ good_sort i (marked m) (marked t) }
{
    (((m.sort == 1) | (m.sort == 3)) & (m.tm == 0))
        | ((m.sort == 2) & ((m.tm as usize) < i) & (t.sort == 1) & (!m.live | t.live))
}

fn good_place(i: usize, m: Mark, t: Mark) -> bool
    ensures { result ≡ pick (eqb i 0) (is_top (marked m)) (good_sort i (marked m) (marked t)) }
{
    if i == 0 {
        is_top(m)
    } else {
        good_sort(i, m, t)
    }
}

fn no_amounts(w: &[u64; 2560], i: usize) -> bool
    requires { i < 256 }
    ensures { result ≡ no_amounts (amounts_at w.now i) }
{
    ((w[256 * 0 + i] == 0) & (w[256 * 1 + i] == 0) & (w[256 * 2 + i] == 0) & (w[256 * 3 + i] == 0))
        & ((w[256 * 4 + i] == 0)
            & (w[256 * 5 + i] == 0)
            & (w[256 * 6 + i] == 0)
            & (w[256 * 7 + i] == 0))
        & (w[256 * 8 + i] == 0)
        & (w[256 * 9 + i] == 0)
}

fn in_range(w: &[u64; 2560], i: usize) -> bool
    requires { i < 256 }
    ensures { result ≡ in_range (amounts_at w.now i) }
{
    let received = kinds_at(w, 0, i);
    let allocated = kinds_at(w, 4, i);
    kinds_capped(received)
        & kinds_within(allocated, received)
        & (word_at(w, 8, i) <= CEILING)
        & (word_at(w, 9, i) <= CEILING)
}

fn good_row(marks: &Marks, w: &[u64; 2560], n: usize, i: usize) -> bool
    requires { i < 256 }
    ensures { result ≡ row_sound (book_from n 0 marks.now w.now [] [] 0 []) i }
{
    let own = mark_at(marks, i);
    let its = mark_at(marks, slot(own.tm));
    if i < n {
        good_place(i, own, its) & (own.live | no_amounts(w, i)) & in_range(w, i)
    } else {
        (own.sort == 0) & !own.live & (own.tm == 0) & no_amounts(w, i)
    }
}

fn rows_sound(marks: &Marks, w: &[u64; 2560], count: u16) -> bool
    ensures { result ≡ all 256 (row_sound (book_from count 0 marks.now w.now []
        [] 0 [])) }
{
    let n = count as usize;
    let mut ok = true;
    for i in 0..256 {
        ok = ok & good_row(marks, w, n, i);
    }
    ok
}

// An account is in the mode only where it is the CM or a live TM.
fn modes_sound(marks: &Marks, modes: &[bool; 256]) -> bool
    ensures { result ≡ modes_at marks.now.sort marks.now.live modes.now }
{
    let mut ok = true;
    for i in 0..256 {
        ok = ok & (!modes[i] | (i == 0) | ((marks.sort[i] == 1) & marks.live[i]));
    }
    ok
}

// Row 0 has number 0, and any other one above that of the row before it (K11).
fn number_rises(i: usize, before: u16, n: u16) -> bool
    ensures { result ≡ pick (eqb i 0) (eqb n 0) (ltb before n) }
{
    if i == 0 { n == 0 } else { before < n }
}

fn good_number(count: usize, next: u32, i: usize, before: u16, n: u16) -> bool
    ensures { result ≡ good_number count next i before n }
{
    if i < count {
        number_rises(i, before, n) & ((n as u32) < next)
    } else {
        n == 0
    }
}

fn numbers_sound(numbers: &[u16; 256], count: u16, next: u32) -> bool
    ensures { result ≡ numbers_sound count next numbers.now }
{
    if 65536 < next {
        return false;
    }
    let n = count as usize;
    let mut before = numbers[0];
    let mut ok = true;
    for i in 0..256 {
        let own = numbers[i];
        ok = ok & good_number(n, next, i, before, own);
        before = own;
    }
    ok
}

// The test of a table where it is, with kept needs by a rule. Ranges are tested before anything is added, so that no sum can pass a word.
pub(crate) fn table_kept(t: &Table, rule: Rule) -> bool
    ensures { result ≡ (formed_b (turned_back t.now) && kept_by rule (turned_back t.now)) }
{
    if t.count < 1 {
        return false;
    }
    if t.count > 256 {
        return false;
    }
    if !rows_sound(&t.marks, &t.amounts, t.count) {
        return false;
    }
    if !modes_sound(&t.marks, &t.modes) {
        return false;
    }
    if !numbers_sound(&t.numbers, t.count, t.next) {
        return false;
    }
    needs_kept(&t.marks, &t.amounts, t.count, &t.needs, rule)
}

// The test that refusal 1 is about.
pub fn table_sound(t: &Table) -> bool
    ensures { result ≡ sound_b (turned_back t.now) }
{
    table_kept(t, Rule::New)
}
