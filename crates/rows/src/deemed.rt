// What is deemed under an account, brought up to date from the one row that changes, without the table, and the needs kept by it (K3). The bounds let accounts in
// tenths through too, with what is in excess under them (K2).
ghost use Rattle.std.specs.Prelude.{◌≡◌, ◌+◌, ◌-◌, ◌≤◌};
ghost use Rattle.rows.specs.View.{blocked_of, free_of};
ghost use Rattle.rows.specs.DeemedUnder.{deemed_under_tm, deemed_under_cm, need_to_keep, need_by};

use super::Account;
use super::needs::{blocked_of, client_due, member_due, only_if};

// a less b, or 0
pub fn less(a: u64, b: u64) -> u64
    ensures { result ≡ a - b }
{
    a.saturating_sub(b)
}

// What is blocked of the account, where so much is deemed under it.
pub fn blocked_with(a: Account, under: u64) -> u64
    requires { (a.margin ≤ 100_000_000_000_000) × (under ≤ 25_600_000_000_000_000) }
    ensures { result ≡ blocked_of (a.margin + under) a.collateral }
{
    blocked_of(a.margin + under, a.collateral)
}

// The account's free collateral, where so much is deemed under it.
pub fn free_with(a: Account, under: u64) -> u64
    requires { (a.margin ≤ 100_000_000_000_000) × (under ≤ 25_600_000_000_000_000) }
    ensures { result ≡ free_of (a.margin + under) a.collateral }
{
    a.collateral - blocked_with(a, under)
}

// The need that is kept at a TM's place (K3), where so much is deemed under it; 0 for any other account. The CM's is put by its place.
pub fn need_to_keep(a: Account, under: u64) -> u64
    requires { (a.margin ≤ 100_000_000_000_000) × (under ≤ 10_000_000_000_000_000_000) }
    ensures { result ≡ need_to_keep a under }
{
    only_if(a.sort == 1, a.margin + under)
}

// An account's need, by the one kept at its place.
pub fn need_by(a: Account, kept: u64) -> u64
    ensures { result ≡ need_by a kept }
{
    if a.sort <= 1 { kept } else { a.margin }
}

// What is deemed under the account that this one names as its TM, after its row is put anew.
pub fn deemed_under_tm(old: Account, new: Account, under: u64) -> u64
    requires { (new.margin ≤ 100_000_000_000_000) × (under ≤ 25_600_000_000_000_000) }
    ensures { result ≡ deemed_under_tm old new under }
{
    let gone = client_due(old);
    let come = client_due(new);
    less(under + come, gone)
}

// What is deemed under the CM after the row is put anew: by the account, and by the one that it names as its TM.
pub fn deemed_under_cm(
    old: Account,
    new: Account,
    under: u64,
    tm: Account,
    clients: u64,
    all: u64,
) -> u64
    requires margin_bound { (old.margin ≤ 100_000_000_000_000) × (new.margin ≤ 100_000_000_000_000) × (tm.margin ≤ 100_000_000_000_000) }
    requires under_bound { (under ≤ 25_600_000_000_000_000) × (clients ≤ 25_600_000_000_000_000) × (all ≤ 7_000_000_000_000_000_000) }
    ensures { result ≡ deemed_under_cm old new under tm clients all }
{
    if !(old.sort == 2) & !(new.sort == 2) {
        // nothing moves under the TM of an account that is no client
        return less(all + member_due(new, under), member_due(old, under));
    }
    let after = deemed_under_tm(old, new, clients);
    let own_gone = member_due(old, under);
    let own_come = member_due(new, under);
    let gone = member_due(tm, clients);
    let come = member_due(tm, after);
    less(all + (come + own_come), gone + own_gone)
}
