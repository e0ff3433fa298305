// Needs, in two rising passes over the words in their places: what each TM's clients are deemed, then what the TMs and CPs are. In tenths
// the same passes give K2's uses. Behind them the test of kept needs (K3).
ghost use Rattle.std.specs.Prelude.{◌≡◌, ◌≤◌, ◌<◌, replicate};
ghost use Rattle.rows.specs.Rows.{row_at, account_by, view_by, view};
ghost use Rattle.rows.specs.Facts.{Shaped, NoneBeyond, InRange};
ghost use Rattle.rows.specs.DeemedUnder.{DeemedUnder};
ghost use Rattle.rows.specs.KeptNeeds.{all_kept, needs_afresh};
ghost use Rattle.rows.specs.Inner.{Ranged, ClientSums, members_below, account_as, view_as, kept_with};
ghost use Rattle.table.specs.Facts.{seen_book};

use super::Marks;
use super::places::{kinds_at, word_at};
use rows::deemed::need_to_keep;
use rows::needs::{client_due, counted_of, in_tenths, member_due, slot};
use rows::{Account, Rule};

// What needs see of account i: its collateral is words 4 to 6 and 8 and what word 7 counts for (K7), its margin word 9.
pub fn account_at(marks: &Marks, w: &[u64; 2560], i: usize, rule: Rule) -> Account
    requires { (i < 256) × InRange (row_at (seen_book 0 marks.now w.now) i) }
    ensures { result ≡ account_by rule (row_at (seen_book 0 marks.now w.now) i) }
{
    let a = kinds_at(w, 4, i);
    Account {
        sort: marks.sort[i],
        tm: marks.tm[i],
        margin: word_at(w, 9, i),
        collateral: a.cash
            + a.deposits
            + a.guarantees
            + word_at(w, 8, i)
            + counted_of(a.securities, rule),
    }
}

// The same, in tenths or as it is.
fn account_as(marks: &Marks, w: &[u64; 2560], i: usize, tenths: bool, rule: Rule) -> Account
    requires { (i < 256) × InRange (row_at (seen_book 0 marks.now w.now) i) }
    ensures { result ≡ account_as tenths (account_by rule (row_at (seen_book 0 marks.now w.now) i)) }
{
    let a = account_at(marks, w, i, rule);
    if tenths { in_tenths(a) } else { a }
}

// What each account's clients are deemed, together, put into a list of zeros.
fn client_sums(
    marks: &Marks,
    w: &[u64; 2560],
    count: u16,
    tenths: bool,
    under: &mut [u64; 256],
    rule: Rule,
)
    requires { Ranged (seen_book count marks.now w.now) × (under.old ≡ replicate 256 0) }
    ensures { ClientSums (view_as tenths (view_by rule (seen_book count marks.now w.now))) under.new }
{
    let n = count as usize;
    for i in 0..n {
        let a = account_as(marks, w, i, tenths, rule);
        let t = slot(a.tm);
        let d = client_due(a);
        under[t] = under[t] + d;
    }
}

// What the TMs and CPs are deemed, together.
fn members_sum(
    marks: &Marks,
    w: &[u64; 2560],
    count: u16,
    tenths: bool,
    under: &[u64; 256],
    rule: Rule,
) -> u64
    requires { Ranged (seen_book count marks.now w.now)
        × ClientSums (view_as tenths (view_by rule (seen_book count marks.now w.now))) under.now }
    ensures { result ≡ members_below (view_as tenths (view_by rule (seen_book count marks.now w.now))) count }
{
    let mut sum: u64 = 0;
    let n = count as usize;
    for i in 0..n {
        let a = account_as(marks, w, i, tenths, rule);
        sum += member_due(a, under[i]);
    }
    sum
}

// What is deemed directly under each account, or in tenths its excess, put into a list of zeros: at the CM's place that of the TMs and CPs, at any other
// that of its clients.
fn deemed_under_by(
    marks: &Marks,
    w: &[u64; 2560],
    count: u16,
    tenths: bool,
    under: &mut [u64; 256],
    rule: Rule,
)
    requires { Ranged (seen_book count marks.now w.now) × Shaped (view_by rule (seen_book count marks.now w.now))
        × (under.old ≡ replicate 256 0) }
    ensures { DeemedUnder (view_as tenths (view_by rule (seen_book count marks.now w.now))) under.new }
{
    client_sums(marks, w, count, tenths, under, rule);
    let all = members_sum(marks, w, count, tenths, under, rule);
    under[0] = all;
}

// The same by the new rule.
pub fn deemed_under(
    marks: &Marks,
    w: &[u64; 2560],
    count: u16,
    tenths: bool,
    under: &mut [u64; 256],
)
    requires { Ranged (seen_book count marks.now w.now) × Shaped (view (seen_book count marks.now w.now))
        × (under.old ≡ replicate 256 0) }
    ensures { DeemedUnder (view_as tenths (view (seen_book count marks.now w.now))) under.new }
{
    deemed_under_by(marks, w, count, tenths, under, Rule::New);
}

// The need to keep at place i (K3), where what is deemed under the account is given.
fn kept_at(marks: &Marks, w: &[u64; 2560], count: u16, i: usize, under: u64, rule: Rule) -> u64
    requires { Ranged (seen_book count marks.now w.now) × (under ≤ 10_000_000_000_000_000_000) }
    ensures { result ≡ kept_with (view_by rule (seen_book count marks.now w.now)) i under }
{
    if (count as usize) <= i {
        return 0;
    }
    let a = account_at(marks, w, i, rule);
    if i == 0 {
        return a.margin + under;
    }
    need_to_keep(a, under)
}

// Every need to keep, worked out afresh and put into a list of zeros.
pub fn needs_afresh(marks: &Marks, w: &[u64; 2560], count: u16, needs: &mut [u64; 256], rule: Rule)
    requires { Ranged (seen_book count marks.now w.now) × Shaped (view_by rule (seen_book count marks.now w.now))
        × NoneBeyond (view_by rule (seen_book count marks.now w.now)) × (needs.old ≡ replicate 256 0) }
    ensures { needs.new ≡ needs_afresh (view_by rule (seen_book count marks.now w.now)) }
{
    deemed_under_by(marks, w, count, false, needs, rule);
    for i in 0..256 {
        let under = needs[i];
        needs[i] = kept_at(marks, w, count, i, under, rule);
    }
}

// Each kept need is the one worked out afresh.
pub fn needs_kept(
    marks: &Marks,
    w: &[u64; 2560],
    count: u16,
    needs: &[u64; 256],
    rule: Rule,
) -> bool
    requires { Ranged (seen_book count marks.now w.now) × Shaped (view_by rule (seen_book count marks.now w.now))
        × NoneBeyond (view_by rule (seen_book count marks.now w.now)) }
    ensures { result ≡ all_kept (view_by rule (seen_book count marks.now w.now)) needs.now }
{
    let mut fresh = [0u64; 256];
    needs_afresh(marks, w, count, &mut fresh, rule);
    let mut ok = true;
    for i in 0..256 {
        ok = ok & (needs[i] == fresh[i]);
    }
    ok
}
