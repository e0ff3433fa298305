// The collateral book of one clearing member, by amount: a fresh one, its soundness, an account's standing, all needs, the evening sums.
// Refusals stay the documents' numbers, 0 for none: `needs_refusal` gives them so.
#![tactic(auto)]

ghost use Rattle.std.specs.Prelude.{◌≡◌};
ghost use Rattle.rows.specs.Rows.{fresh_book};
ghost use Rattle.table.specs.Words.{turned, turned_back};
ghost use Rattle.book.specs.Sound.{sound_b};
ghost use Rattle.book.specs.Asked.{standing_of};
ghost use Rattle.book.specs.NeedsListed.{needs_refusal, needs_room};
ghost use Rattle.book.specs.Evening.{evening_of};
ghost use Rattle.book.specs.TakeOver.{take_over_refusal, taken_over};

mod blocking;
mod evening;
pub mod sound;

use lookup::place_among;
pub use rows::CEILING;
use rows::Rule;
use sound::{table_kept, table_sound};
use table::needs::{account_at, needs_afresh};
pub use table::{Marks, Table};

// A standing's five figures, the account's mode and, of account 0, the shortfall (K8), behind the refusal number or 0.
// No Result: document 01 says all figures beside a refusal, 0 (`no_figures`).
#[derive(Clone, Copy)]
pub struct Figures {
    pub refusal: u8,
    pub collateral: u64,
    pub need: u64,
    pub blocked: u64,
    pub deemed: u64,
    pub free: u64,
    pub mode: bool,
    pub shortfall: u64,
}

// An amount that every account has.
#[derive(Clone, Copy)]
pub enum Amount {
    ReceivedCash,
    ReceivedDeposits,
    ReceivedGuarantees,
    ReceivedSecurities,
    AllocatedCash,
    AllocatedDeposits,
    AllocatedGuarantees,
    AllocatedSecurities,
    Pledged,
    Margin,
}

// An amount of all accounts, behind the refusal number or 0.
// No Result: `evening_of` and docs/API.md say both fields, with a refusal too.
#[derive(Clone, Copy)]
pub struct Summed {
    pub refusal: u8,
    pub total: u64,
}

// The refusal number or 0, and the table after it.
// No Result: the table is there in either case.
#[derive(Clone, Copy)]
pub struct Taken {
    pub refusal: u8,
    pub table: Table,
}

pub fn fresh() -> Table
    ensures { result ≡ turned fresh_book }
{
    let mut live = [false; 256];
    live[0] = true;
    Table {
        count: 1,
        serial: 0,
        marks: Marks {
            sort: [0; 256],
            live,
            tm: [0; 256],
        },
        modes: [false; 256],
        needs: [0; 256],
        amounts: [0; 2560],
        next: 1,
        numbers: [0; 256],
    }
}

pub fn is_sound(t: Table) -> bool
    ensures { result ≡ sound_b (turned_back t) }
{
    table_sound(&t)
}

pub fn standing(t: Table, account: u16) -> Figures
    ensures { result ≡ standing_of (turned_back t) account }
{
    if !table_sound(&t) {
        return blocking::refused(1);
    }
    let place = place_among(&t.numbers, t.count, account);
    if place >= t.count {
        return blocking::refused(7);
    }
    let i = place as usize;
    if !t.marks.live[i] {
        return blocking::refused(7);
    }
    let mode = t.modes[i];
    let kept = t.needs[i];
    blocking::figures(&t.marks, &t.amounts, t.count, i, kept, mode)
}

// The needs of all accounts, one for each place of the room: the refusal, or 0 (K3).
pub fn needs(t: Table, room: &mut [u64]) -> u8
    ensures value { result ≡ needs_refusal (turned_back t) room.old }
    ensures room_after { room.new ≡ needs_room (turned_back t) room.old }
{
    if !table_sound(&t) {
        return 1;
    }
    if room.len() != t.count as usize {
        return 15;
    }
    blocking::put_needs(&t.marks, &t.amounts, &t.needs, t.count, room);
    0
}

// The evening sums: an amount of all accounts, out of its own run of words.
pub fn amount_sum(t: Table, amount: Amount) -> Summed
    ensures { result ≡ evening_of (turned_back t) amount }
{
    if !table_sound(&t) {
        return Summed {
            refusal: 1,
            total: 0,
        };
    }
    let n = t.count as usize;
    let k = evening::amount_number(amount);
    let total = table::evening::amount_sum(&t.amounts, k, n);
    Summed { refusal: 0, total }
}

// Takes a book over to the rule by which government securities count less a tenth (K7): 1 and the same book, or 0 and the book with its kept needs worked out afresh. Where it is
// sound by the old rule, the need kept at place 0 is the CM's by that rule.
pub fn take_over(t: Table) -> Taken
    ensures { result ≡ record { refusal = take_over_refusal (turned_back t); table = turned (taken_over (turned_back t)) } }
{
    if !table_kept(&t, Rule::Old) {
        return Taken {
            refusal: 1,
            table: t,
        };
    }
    let cm = account_at(&t.marks, &t.amounts, 0, Rule::Old);
    if cm.collateral < t.needs[0] {
        return Taken {
            refusal: 1,
            table: t,
        };
    }
    let mut needs = [0; 256];
    needs_afresh(&t.marks, &t.amounts, t.count, &mut needs, Rule::New);
    Taken {
        refusal: 0,
        table: Table { needs, ..t },
    }
}
