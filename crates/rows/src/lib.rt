// The rows of the old order's book, and what one account adds to what is deemed under others.
#![tactic(auto)]

pub mod deemed;
pub mod modes;
pub mod needs;
pub mod ranges;
pub mod setters;
pub mod words;

// Received or allocated collateral by kind, in paise.
#[derive(Clone, Copy)]
pub struct Kinds {
    pub cash: u64,
    pub deposits: u64,
    pub guarantees: u64,
    pub securities: u64,
}

// No amount of any kind.
pub const NO_KINDS: Kinds = Kinds {
    cash: 0,
    deposits: 0,
    guarantees: 0,
    securities: 0,
};

// An account. `sort` is the code of the record that opened it (1 TM, 2 client, 3 CP) and 0 for the CM; `tm` is the place of a
// client's TM and 0 for any other row.
#[derive(Clone, Copy)]
pub struct Row {
    pub sort: u8,
    pub live: bool,
    pub tm: u16,
    pub received: Kinds,
    pub allocated: Kinds,
    pub pledged: u64,
    pub margin: u64,
}

// What needs and the close-out see of an account.
#[derive(Clone, Copy)]
pub struct Account {
    pub sort: u8,
    pub tm: u16,
    pub margin: u64,
    pub collateral: u64,
}

// The rule by which government securities count as collateral: in full, or, since K7, less a tenth. A book is judged by the old one only where it is taken over.
#[derive(Clone, Copy)]
pub enum Rule {
    Old,
    New,
}

// `modes` says of each place whether its account is in risk reduction mode (K2); `needs` has the CM's and each TM's need at its place (K3).
#[derive(Clone, Copy)]
pub struct Book {
    pub count: u16,
    pub serial: u16,
    pub rows: [Row; 256],
    pub modes: [bool; 256],
    pub needs: [u64; 256],
    pub next: u32,
    pub numbers: [u16; 256],
}

// The largest amount, in paise.
pub const CEILING: u64 = 10_000_000_000_000;
