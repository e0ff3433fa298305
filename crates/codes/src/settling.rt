// What is deemed under an account, by the kept needs, and what it comes to after one account changes.
ghost use Rattle.std.specs.Prelude.{◌≡◌, ◌+◌, ◌≤◌, ◌<◌, ltb};
ghost use Rattle.rows.specs.Rows.{ceiling};
ghost use Rattle.rules.specs.Inner.{top_margin};
ghost use Rattle.codes.specs.Own.{deemed_under_at, deemed_under_in, deemed_under_after, deemed_under_after_in, Held};

use rows::Account;
use rows::deemed::{deemed_under_cm, deemed_under_tm, less};
use rows::needs::{account_of, only_if};
use table::Marks;
use table::places::{row_at, word_at};

// Under the TM, and under the CM.
#[derive(Clone, Copy)]
pub struct DeemedUnderAfter {
    pub tm: u64,
    pub cm: u64,
}

// What is deemed under the account at a place: its kept need (K3) less its margin, which is nothing where none is kept.
pub fn deemed_under_at(w: &[u64; 2560], needs: &[u64; 256], j: usize) -> u64
    requires { j < 256 }
    ensures { result ≡ deemed_under_at w.now needs.now j }
{
    less(needs[j], word_at(w, 9, j))
}

// After an account changes from old to new, where its TM's is given, and so much is under each of the three.
pub fn deemed_under_after(
    own: u64,
    clients: u64,
    all: u64,
    old: Account,
    new: Account,
    its: Account,
) -> DeemedUnderAfter
    requires { (own ≤ 25_600_000_000_000_000) × (clients ≤ 25_600_000_000_000_000) × (all ≤ 25_600_000_000_000_000)
        × (old.margin ≤ 100_000_000_000_000) × (new.margin ≤ 100_000_000_000_000) × (its.margin ≤ 100_000_000_000_000) }
    ensures { result ≡ deemed_under_after own clients all old new its }
{
    DeemedUnderAfter {
        tm: deemed_under_tm(old, new, clients),
        cm: deemed_under_cm(old, new, own, its, clients, all),
    }
}

// The same for the account at place i, its TM's being read from its place.
pub(crate) fn deemed_under_after_at(
    marks: &Marks,
    w: &[u64; 2560],
    needs: &[u64; 256],
    i: usize,
    old: Account,
    new: Account,
) -> DeemedUnderAfter
    requires { Held marks.now w.now (deemed_under_in w.now needs.now) i × (old.tm < 256) × (old.margin ≤ ceiling) × (new.margin ≤ ceiling) }
    ensures { result ≡ deemed_under_after_in marks.now w.now (deemed_under_in w.now needs.now) i old new }
{
    let t = old.tm as usize;
    let its = account_of(row_at(marks, w, t));
    let own = deemed_under_at(w, needs, i);
    let clients = deemed_under_at(w, needs, t);
    let all = deemed_under_at(w, needs, 0);
    deemed_under_after(own, clients, all, old, new, its)
}

// The CM's need passes its collateral, with the margin y of the account and so much deemed under the CM.
pub(crate) fn need_passes_with(a: Account, top: Account, y: u64, all: u64) -> bool
    requires { (top.margin ≤ ceiling) × (y ≤ ceiling) × (all ≤ 10_000_000_000_000_000_000) }
    ensures { result ≡ ltb top.collateral (top_margin a top y + all) }
{
    let own = only_if(a.sort == 0, y);
    let other = only_if(!(a.sort == 0), top.margin);
    top.collateral < own + other + all
}
