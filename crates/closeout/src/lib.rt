// The close-out: who pays what when positions are closed out. The book stays as it is.
#![tactic(auto)]

ghost use Rattle.std.specs.Prelude.{◌≡◌, ◌≤◌, length};
ghost use Rattle.book.specs.Facts.{Sound};
ghost use Rattle.table.specs.Words.{turned_back};
ghost use Rattle.closeout.specs.Closing.{good_losses, no_total, closed_of, room_of};

use book::sound::table_sound;
pub use rows::CEILING;
pub use table::{Marks, Table};

mod pays;

// The refusal number or 0, and the total left uncovered.
// No Result: `no_total` and docs/API.md say both fields, with a refusal too.
#[derive(Clone, Copy)]
pub struct Closed {
    pub refusal: u8,
    pub total: u64,
}

// Each loss is good.
fn good_losses(t: &Table, losses: &[u64]) -> bool
    requires { (length losses.now ≡ t.now.count) × (t.now.count ≤ 256) }
    ensures { result ≡ good_losses (turned_back t.now) losses.now }
{
    let n = t.count as usize;
    let mut good = true;
    for i in 0..n {
        good = good & ((losses[i] <= CEILING) & (t.marks.live[i] | (losses[i] == 0)));
    }
    good
}

fn refused(n: u8) -> Closed
    ensures { result ≡ no_total n }
{
    Closed {
        refusal: n,
        total: 0,
    }
}

// At a sound book.
fn close_out_at(t: &Table, losses: &[u64], room: &mut [u64]) -> Closed
    requires { Sound (turned_back t.now) }
    ensures value { result ≡ closed_of (turned_back t.now) losses.now room.old }
    ensures room_after { room.new ≡ room_of (turned_back t.now) losses.now room.old }
{
    let n = t.count as usize;
    if losses.len() != n {
        return refused(15);
    }
    if room.len() != 4 * n {
        return refused(15);
    }
    if !good_losses(t, losses) {
        return refused(16);
    }
    Closed {
        refusal: 0,
        total: pays::fill(t, losses, room),
    }
}

// The answer, and in the room each account's four amounts: from own collateral, from the TM's, from the CM's, uncovered.
pub fn close_out(t: Table, losses: &[u64], room: &mut [u64]) -> Closed
    ensures answer { result ≡ closed_of (turned_back t) losses.now room.old }
    ensures rows { room.new ≡ room_of (turned_back t) losses.now room.old }
{
    if !table_sound(&t) {
        return refused(1);
    }
    close_out_at(&t, losses, room)
}
