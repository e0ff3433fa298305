// A book's written form: the file that a book is kept in.
#![tactic(auto)]

mod forms;
mod listed;
mod numbered;
mod reading;
mod tested;
mod writing;

pub use reading::read;
pub use table::{Marks, Table};
pub use writing::write;

// How many bytes the written form has.
pub const SIZE: usize = 24_332;

// Which written form: the first one, which has no numbers and is only read, or the one with them (K11).
#[derive(Clone, Copy)]
pub(crate) enum Version {
    One,
    Two,
}

// What bytes hold: a book, or none, and then the fresh book stands here (`bookfile.Reading.read_of`).
#[derive(Clone, Copy)]
pub struct Held {
    pub is_book: bool,
    pub table: Table,
}
