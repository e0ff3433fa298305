// A standing's figures, and the answer that has none; all needs. Both take needs as they are kept (K3).
ghost use Rattle.std.specs.Prelude.{◌≡◌, ◌<◌, length};
ghost use Rattle.sums.specs.Listed.{list_to};
ghost use Rattle.rows.specs.View.{need};
ghost use Rattle.rows.specs.Rows.{view};
ghost use Rattle.rows.specs.Facts.{Shaped, NeedsKept};
ghost use Rattle.rows.specs.KeptNeeds.{kept_need};
ghost use Rattle.rows.specs.Inner.{Ranged};
ghost use Rattle.table.specs.Facts.{seen_book};
ghost use Rattle.book.specs.Asked.{figures_of, no_figures};

use super::Figures;
use rows::Rule;
use rows::deemed::need_by;
use rows::needs::{blocked_of, only_if};
use table::Marks;
use table::needs::account_at;

pub(crate) fn figures(
    marks: &Marks,
    w: &[u64; 2560],
    count: u16,
    i: usize,
    kept: u64,
    mode: bool,
) -> Figures
    requires { Ranged (seen_book count marks.now w.now) × Shaped (view (seen_book count marks.now w.now)) × (i < count)
        × (kept ≡ kept_need (view (seen_book count marks.now w.now)) i) }
    ensures { result ≡ figures_of (view (seen_book count marks.now w.now)) mode i }
{
    let a = account_at(marks, w, i, Rule::New);
    let n = need_by(a, kept);
    let c = a.collateral;
    let k = blocked_of(n, c);
    Figures {
        refusal: 0,
        collateral: c,
        need: n,
        blocked: k,
        deemed: n - k,
        free: c - k,
        mode,
        shortfall: only_if(i == 0, n - k),
    }
}

pub(crate) fn refused(n: u8) -> Figures
    ensures { result ≡ no_figures n }
{
    Figures {
        refusal: n,
        collateral: 0,
        need: 0,
        blocked: 0,
        deemed: 0,
        free: 0,
        mode: false,
        shortfall: 0,
    }
}

pub(crate) fn put_needs(
    marks: &Marks,
    w: &[u64; 2560],
    needs: &[u64; 256],
    count: u16,
    room: &mut [u64],
)
    requires ranged { Ranged (seen_book count marks.now w.now) × Shaped (view (seen_book count marks.now w.now)) }
    requires needs_kept { NeedsKept (view (seen_book count marks.now w.now)) needs.now × (length room.old ≡ count) }
    ensures { room.new ≡ list_to (need (view (seen_book count marks.now w.now))) count }
{
    for i in 0..count as usize {
        let a = account_at(marks, w, i, Rule::New);
        room[i] = need_by(a, needs[i]);
    }
}
