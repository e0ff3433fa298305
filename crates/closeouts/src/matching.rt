// The losses of the rows held, by the numbers that a text names.
ghost use Rattle.std.specs.Prelude.{◌≡◌, ◌≤◌, ltb, length, take, get_or};
ghost use Rattle.sums.specs.Sum.{all};
ghost use Rattle.sums.specs.Listed.{list_to};
ghost use Rattle.rows.specs.Rows.{place_among};
ghost use Rattle.closeouts.specs.LossLines.{loss_for};

use crate::loss_lines::first_place;
use crate::losses::Losses;

impl Losses {
    fn loss_for(&self, n: u16) -> u64
        requires { self.now.count ≤ 256 }
        ensures { result ≡ loss_for (take self.now.count self.now.numbers) (take self.now.count self.now.list) n }
    {
        match first_place(&self.numbers[..self.count], n) {
            Some(p) => self.list[p],
            None => 0,
        }
    }

    // A loss for each row, by the rows' numbers.
    pub(crate) fn row_losses(&self, rows: &[u16]) -> [u64; 256]
        requires { (length rows.now ≤ 256) × (self.now.count ≤ 256) }
        ensures { take (length rows.now) result ≡ list_to (λ i. loss_for (take self.now.count self.now.numbers)
            (take self.now.count self.now.list) (get_or rows.now i 0)) (length rows.now) }
    {
        let mut list = [0u64; 256];
        for i in 0..rows.len() {
            list[i] = self.loss_for(rows[i]);
        }
        list
    }

    // Each number named is a row's.
    pub(crate) fn all_held(&self, rows: &[u16]) -> bool
        requires { self.now.count ≤ 256 }
        ensures { result ≡ all self.now.count (λ i. ltb (place_among rows.now (length rows.now)
            (get_or self.now.numbers i 0)) (length rows.now)) }
    {
        let mut ok = true;
        for i in 0..self.count {
            ok = ok & first_place(rows, self.numbers[i]).is_some();
        }
        ok
    }
}
