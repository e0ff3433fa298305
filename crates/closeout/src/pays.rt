// What each account pays, in one rising pass over both rounds: own collateral, the TM's, the CM's, and what is left uncovered.
ghost use Rattle.std.specs.Prelude.{◌≡◌, ◌+◌, ◌-◌, ◌≤◌, length};
ghost use Rattle.rows.specs.Rows.{account_of, view};
ghost use Rattle.rows.specs.Facts.{InRange};
ghost use Rattle.table.specs.Words.{turned_back};
ghost use Rattle.closeout.specs.Columns.{four, rows_to, total};
ghost use Rattle.closeout.specs.Closing.{loss_at};
ghost use Rattle.closeout.specs.Inner.{paid_by, rounds_by, after_own, four_of, put_at, Checked};

use rows::Row;
use rows::deemed::free_with;
use rows::needs::{account_of, only_if};
use table::Table;
use table::places::row_at;

// What one account pays in one round, and what its purse keeps after its own part.
#[derive(Clone, Copy)]
pub(crate) struct Paid {
    own: u64,
    tm: u64,
    cm: u64,
    unpaid: u64,
    left: u64,
}

// Both rounds of one account, and its first three amounts; the fourth is what round two leaves.
#[derive(Clone, Copy)]
pub(crate) struct Both {
    own: u64,
    tm: u64,
    cm: u64,
    first: Paid,
    second: Paid,
}

// What is left of a TM's or the CM's collateral in round one, and of its free collateral in round two.
#[derive(Clone, Copy)]
pub(crate) struct Purses {
    left: u64,
    free: u64,
}

impl Purses {
    // Once so much is paid from them in each round.
    fn less(self, first: u64, second: u64) -> Purses
        requires { (first ≤ self.left) × (second ≤ self.free) }
        ensures { result ≡ record { left = self.left - first; free = self.free - second } }
    {
        Purses {
            left: self.left - first,
            free: self.free - second,
        }
    }
}

// One account in one round, which is asked for `ask`: its TM's purse has `tm` left, and the CM's `cm`.
fn pay(sort: u8, purse: u64, ask: u64, tm: u64, cm: u64) -> Paid
    ensures { result ≡ paid_by sort purse ask tm cm }
{
    let own = ask.min(purse);
    let short = ask - own;
    let from_tm = only_if(sort == 2, short.min(tm));
    let asked = short - from_tm;
    let from_cm = asked.min(cm);
    Paid {
        own,
        tm: from_tm,
        cm: from_cm,
        unpaid: asked - from_cm,
        left: purse - own,
    }
}

// Both rounds of one account, where its TM's purses are `tm` and the CM's `cm`. A client or CP has paid from its own before them, and has
// nothing more to pay with.
fn rounds(r: Row, loss: u64, under: u64, tm: Purses, cm: Purses) -> Both
    requires { InRange r × (under ≤ 2_560_000_000_000_000) }
    ensures { result ≡ rounds_by (account_of r) loss under tm.left cm.left tm.free cm.free }
{
    let a = account_of(r);
    let free = free_with(a, under);
    let client_or_cp = (a.sort == 2) | (a.sort == 3);
    let own = only_if(client_or_cp, loss.min(a.collateral));
    let ask = loss.min(a.margin).saturating_sub(own);
    let purse = only_if(!client_or_cp, a.collateral);
    let first = pay(a.sort, purse, ask, tm.left, cm.left);
    let paid = first.own + first.tm + first.cm;
    let left = loss - own - paid;
    let spare = only_if(!client_or_cp, free);
    let second = pay(a.sort, spare, left, tm.free, cm.free);
    Both {
        own: own + first.own + second.own,
        tm: first.tm + second.tm,
        cm: first.cm + second.cm,
        first,
        second,
    }
}

// What the CM's collateral has left in round one, and its free part in round two, once its own parts are paid.
fn after_own(top: Row, loss: u64, under: u64) -> Purses
    requires { InRange top × (under ≤ 2_560_000_000_000_000) }
    ensures { result ≡ after_own (account_of top) loss under }
{
    let a = account_of(top);
    let c = a.collateral;
    let f = free_with(a, under);
    let own = loss.min(a.margin).min(c);
    Purses {
        left: c - own,
        free: f - (loss - own).min(f),
    }
}

fn put(room: &mut [u64], at: usize, p: Both)
    requires { at + 4 ≤ length room.old }
    ensures { room.new ≡ put_at room.old at (four_of p) }
{
    room[at] = p.own;
    room[at + 1] = p.tm;
    room[at + 2] = p.cm;
    room[at + 3] = p.second.unpaid;
}

// The rows, and the total left uncovered. purses[m] has what account m's collateral has left after its own part and the clients passed: a
// TM's row comes before its clients'. cm is the same of the CM's, after its own parts and the accounts passed. What is deemed under an
// account is its kept need less its margin (K3): nothing is added up for it.
pub(crate) fn fill(t: &Table, losses: &[u64], room: &mut [u64]) -> u64
    requires { Checked (turned_back t.now) losses.now room.old }
    ensures { (room.new ≡ rows_to (four (view (turned_back t.now)) (loss_at losses.now)) t.now.count)
        × (result ≡ total (view (turned_back t.now)) (loss_at losses.now)) }
{
    let mut purses = [Purses { left: 0, free: 0 }; 256];
    let top = row_at(&t.marks, &t.amounts, 0);
    let mut cm = after_own(top, losses[0], t.needs[0].saturating_sub(top.margin));
    let mut uncovered: u64 = 0;
    let n = t.count as usize;
    for i in 0..n {
        let r = row_at(&t.marks, &t.amounts, i);
        let under = t.needs[i].saturating_sub(r.margin);
        let m = r.tm as usize;
        let tm = purses[m];
        let p = rounds(r, losses[i], under, tm, cm);
        put(room, 4 * i, p);
        purses[m] = tm.less(p.first.tm, p.second.tm);
        purses[i] = Purses {
            left: p.first.left,
            free: p.second.left,
        };
        cm = cm.less(p.first.cm, p.second.cm);
        uncovered += p.second.unpaid;
    }
    uncovered
}
