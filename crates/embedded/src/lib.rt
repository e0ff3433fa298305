// The book's calls for a program's own process, exported for C (include/loft.h): each over a book's bytes, as the public call answers.
// Refusals stay numbers: C is given them.
#![tactic(auto)]

mod asked;
mod carrying;
mod closing;
mod held;
mod margins;
mod moving;
mod rooms;
mod writing;

pub use asked::{loft_most, loft_needs, loft_standing, loft_statement};
pub use carrying::loft_carry_out;
pub use closing::loft_close_out;
pub use held::{loft_fresh, loft_is_sound};
pub use margins::loft_margin;
pub use moving::{loft_archive, loft_take_over};
pub use writing::{loft_read_record, loft_write_record};
