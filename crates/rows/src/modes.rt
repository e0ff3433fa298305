// Risk reduction mode (K2): one account's, by its use.
ghost use Rattle.std.specs.Prelude.{◌≡◌, ◌&&◌, ◌||◌, ◌+◌, ◌*◌, ◌≤◌, eqb};
ghost use Rattle.rows.specs.Modes.{mode_after};

use super::Account;

pub fn mode_after(used: u64, collateral: u64, before: bool) -> bool
    requires { (used ≤ 9_000_000_000_000_000_000) × (collateral ≤ 100_000_000_000_000) }
    ensures { result ≡ mode_after used collateral before }
{
    let on = (used != 0) & (9 * collateral <= used);
    let off = (used == 0) | (2 * used < 17 * collateral);
    on | !off & before
}

// The mode of the account at place i after a look, where so much is under it in tenths: off where it has none.
pub fn look(i: usize, a: Account, under: u64, before: bool) -> bool
    requires { (a.margin ≤ 100_000_000_000_000) × (a.collateral ≤ 100_000_000_000_000) × (under ≤ 8_000_000_000_000_000_000) }
    ensures { result ≡ ((eqb i 0 || eqb a.sort 1) && mode_after (10 * a.margin + under) a.collateral before) }
{
    if !((i == 0) | (a.sort == 1)) {
        return false;
    }
    let used = 10 * a.margin + under;
    mode_after(used, a.collateral, before)
}
