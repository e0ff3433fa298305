// After a record that may have moved figures: the account's collateral, the kept needs (K3), what is in excess and the modes (K2) follow at its place, and
// what it leaves to the one that answers for it is carried up to its TM and to the CM, only as far as it moves.
ghost use Rattle.std.specs.Prelude.{◌≡◌, ◌+◌, ◌*◌, ◌<◌, ◌≤◌, false, ◌&&◌, set, ◌==◌, slice_index_or, slice_set};
ghost use Rattle.sums.specs.Choice.{pick};
ghost use Rattle.rows.specs.Rows.{ceiling};
ghost use Rattle.rows.specs.Modes.{mode_after};
ghost use Rattle.steps.specs.Steps.{modes_in};
ghost use Rattle.steps.specs.Dues.{Ranging, AllRanging, Keeps, Small, Fits, Steady, Following, Risen, Lifted, Followed, collateral_in, due_of, due_at, has_need};

use crate::{At, Lent};
use rows::Rule;
use rows::deemed::less;
use rows::modes::mode_after;
use rows::needs::counted_of;
use table::places::word_at;

// What an account leaves to the one that answers for it: what it is deemed, and its excess in tenths.
#[derive(Clone, Copy)]
pub struct Due {
    pub plain: u64,
    pub tenths: u64,
}

fn due_of(margin: u64, under: u64, excess: u64, collateral: u64) -> Due
    requires { (margin ≤ ceiling) × (under ≤ 1_000_000_000_000_000_000) × (excess ≤ 1_000_000_000_000_000_000) × (collateral ≤ 100_000_000_000_000) }
    ensures { result ≡ due_of margin under excess collateral }
{
    Due {
        plain: less(margin + under, collateral),
        tenths: less(10 * margin + excess, 9 * collateral),
    }
}

fn due_at(l: &Lent, j: usize) -> Due
    requires { Fits 1_000_000_000_000_000_000 l.now j }
    ensures { result ≡ due_at l.now j }
{
    let m = word_at(&l.words, 9, j);
    due_of(m, less(l.needs[j], m), l.excess[j], l.kept[j])
}

fn same_due(a: Due, b: Due) -> bool
    ensures { result ≡ (a.plain == b.plain && a.tenths == b.tenths) }
{
    (a.plain == b.plain) & (a.tenths == b.tenths)
}

fn collateral_at(w: &[u64; 2560], i: usize) -> u64
    requires { Ranging w.now i }
    ensures { result ≡ collateral_in w.now i }
{
    word_at(w, 4, i)
        + word_at(w, 5, i)
        + word_at(w, 6, i)
        + word_at(w, 8, i)
        + counted_of(word_at(w, 7, i), Rule::New)
}

// Each account's collateral, to be kept beside the words.
pub(crate) fn collaterals(w: &[u64; 2560]) -> [u64; 256]
    requires { AllRanging w.now }
    ensures { Keeps w.now result }
{
    let mut kept = [0u64; 256];
    for i in 0..256 {
        kept[i] = collateral_at(w, i);
    }
    kept
}

// The mode of the account at a place, in the book.
pub(crate) fn mode_of(l: &Lent, was: &[bool; 256], at: At, j: usize) -> bool
    requires { j < 256 }
    ensures { result ≡ slice_index_or (modes_in at.waiting was.now l.now.modes) j false }
{
    if at.waiting { was[j] } else { l.modes[j] }
}

fn as_place(tm: u16) -> usize
    ensures { result ≡ tm }
{
    tm as usize
}

// The account named, whose sort has a need kept and a mode: both put anew.
fn put_own(l: &mut Lent, was: &[bool; 256], at: At, i: usize, need: u64, used: u64, collateral: u64)
    requires { (i < 256) × (used ≤ 9_000_000_000_000_000_000) × (collateral ≤ 100_000_000_000_000) }
    ensures { l.new ≡ record l.old {
      needs = pick (has_need l.old.marks i) (slice_set l.old.needs i need) l.old.needs;
      modes = pick (has_need l.old.marks i) (set l.old.modes i
          (mode_after used collateral (slice_index_or (modes_in at.waiting was.now l.old.modes) i false))) l.old.modes;
    } }
{
    if l.marks.sort[i] <= 1 {
        l.needs[i] = need;
        l.modes[i] = mode_after(used, collateral, mode_of(l, was, at, i));
    }
}

// Need, excess and mode of the account at place t, after one under it left it new in place of old.
fn rise(l: &mut Lent, was: &[bool; 256], at: At, t: usize, old: Due, new: Due)
    requires { Fits 1_000_000_000_000_000_000 l.old t × Small 2_000_000_000_000_000_000 new }
    ensures { Risen l.old (modes_in at.waiting was.now l.old.modes) t old new l.new }
{
    let m = word_at(&l.words, 9, t);
    let e = less(l.excess[t] + new.tenths, old.tenths);
    let n = less(l.needs[t], m);
    l.needs[t] = m + less(n + new.plain, old.plain);
    l.excess[t] = e;
    l.modes[t] = mode_after(10 * m + e, l.kept[t], mode_of(l, was, at, t));
}

// The same for a client's TM at place t, and for the CM where that moves what the TM leaves.
fn lift(l: &mut Lent, was: &[bool; 256], at: At, t: usize, old: Due, new: Due)
    requires { Fits 100_000_000_000_000_000 l.old t × Steady l.old (modes_in at.waiting was.now l.old.modes) 0
        × Small 200_000_000_000_000_000 new × (0 < t) }
    ensures { Lifted l.old (modes_in at.waiting was.now l.old.modes) t old new l.new }
{
    let its = due_at(l, t);
    rise(l, was, at, t, old, new);
    let after = due_at(l, t);
    if !same_due(its, after) {
        rise(l, was, at, 0, its, after);
    }
}

// The words are those after the record, and the account at place i had the margin m0 before it.
pub(crate) fn follow(l: &mut Lent, was: &[bool; 256], at: At, i: usize, m0: u64)
    requires { Following l.old (modes_in at.waiting was.now l.old.modes) i m0 }
    ensures { Followed l.old (modes_in at.waiting was.now l.old.modes) i m0 l.new }
{
    let m1 = word_at(&l.words, 9, i);
    let c1 = collateral_at(&l.words, i);
    let under = less(l.needs[i], m0);
    let e = l.excess[i];
    let old = due_of(m0, under, e, l.kept[i]);
    let new = due_of(m1, under, e, c1);
    l.kept[i] = c1;
    put_own(l, was, at, i, m1 + under, 10 * m1 + e, c1);
    if i == 0 {
        return;
    }
    if same_due(old, new) {
        return;
    }
    let t = as_place(l.marks.tm[i]);
    if t == 0 {
        rise(l, was, at, 0, old, new);
        return;
    }
    lift(l, was, at, t, old, new);
}
