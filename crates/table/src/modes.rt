// All modes after a look (K2), from the words in their places.
ghost use Rattle.std.specs.Prelude.{◌≡◌};
ghost use Rattle.rows.specs.Rows.{view};
ghost use Rattle.rows.specs.Facts.{Shaped, NoneBeyond};
ghost use Rattle.rows.specs.DeemedUnder.{DeemedUnder};
ghost use Rattle.rows.specs.Modes.{looked};
ghost use Rattle.rows.specs.Inner.{Ranged, in_tenths};
ghost use Rattle.table.specs.Facts.{seen_book};

use super::Marks;
use super::needs::account_at;
use rows::Rule;
use rows::modes::look;

// By the modes before and what is under each account in tenths (`needs::deemed_under`).
pub fn look_all(
    marks: &Marks,
    w: &[u64; 2560],
    count: u16,
    excess: &[u64; 256],
    modes: &[bool; 256],
) -> [bool; 256]
    requires ranged { Ranged (seen_book count marks.now w.now) × Shaped (view (seen_book count marks.now w.now)) }
    requires none_beyond { NoneBeyond (view (seen_book count marks.now w.now))
        × DeemedUnder (in_tenths (view (seen_book count marks.now w.now))) excess.now }
    ensures { result ≡ looked (view (seen_book count marks.now w.now)) modes.now }
{
    let mut after = [false; 256];
    let n = count as usize;
    for i in 0..n {
        let a = account_at(marks, w, i, Rule::New);
        after[i] = look(i, a, excess[i], modes[i]);
    }
    after
}
