// The evening sums: one amount of all accounts, out of its own run of words.
ghost use Rattle.std.specs.Prelude.{◌≡◌, ◌≤◌, ◌<◌};
ghost use Rattle.table.specs.Inner.{amount_sum};
ghost use Rattle.table.specs.Facts.{Capped};

// Amount k of the accounts below n.
pub fn amount_sum(w: &[u64; 2560], k: usize, n: usize) -> u64
    requires { (k < 10) × (n ≤ 256) × Capped w.now k n }
    ensures { result ≡ amount_sum w.now k n }
{
    let run = 256 * k;
    let mut sum: u64 = 0;
    for i in 0..n {
        sum += w[run + i];
    }
    sum
}
