// The table stored by amount and then by account (K12), turned over from the old order's book and back.
#![tactic(auto)]

ghost use Rattle.std.specs.Prelude.{◌≡◌};
ghost use Rattle.table.specs.Words.{turned, turned_back};

use places::{put_row, rows_of};
use rows::{Book, Row};

pub mod evening;
pub mod modes;
pub mod needs;
pub mod places;

// Each account's sort, live and TM, which are no amounts.
#[derive(Clone, Copy)]
pub struct Marks {
    pub sort: [u8; 256],
    pub live: [bool; 256],
    pub tm: [u16; 256],
}

// Amount k of account i is word 256 k + i: 0 to 3 received, 4 to 7 allocated, 8 pledged, 9 margin. The modes and the
// kept needs (K3), one more run of words, stand as in the old order.
#[derive(Clone, Copy)]
pub struct Table {
    pub count: u16,
    pub serial: u16,
    pub marks: Marks,
    pub modes: [bool; 256],
    pub needs: [u64; 256],
    pub amounts: [u64; 2560],
    pub next: u32,
    pub numbers: [u16; 256],
}

// A table that stays is its book turned over.
pub fn same(t: Table) -> Table
    ensures { result ≡ turned (turned_back t) }
{
    t
}

pub fn turn(b: Book) -> Table
    ensures { result ≡ turned b }
{
    let mut marks = Marks {
        sort: [0; 256],
        live: [false; 256],
        tm: [0; 256],
    };
    let mut amounts = [0; 2560];
    for i in 0..256 {
        put_row(&mut marks, &mut amounts, i, b.rows[i]);
    }
    Table {
        count: b.count,
        serial: b.serial,
        marks,
        modes: b.modes,
        needs: b.needs,
        amounts,
        next: b.next,
        numbers: b.numbers,
    }
}

pub fn turn_back(t: Table) -> Book
    ensures { result ≡ turned_back t }
{
    Book {
        count: t.count,
        serial: t.serial,
        rows: rows_of(&t.marks, &t.amounts),
        modes: t.modes,
        needs: t.needs,
        next: t.next,
        numbers: t.numbers,
    }
}
