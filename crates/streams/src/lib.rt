// Bytes read from and written to a file or a stream, whole. A call that a signal interrupted is tried again; one that failed is told by whoever asked.
#![tactic(auto)]

ghost use Rattle.std.specs.Prelude.{true, ◌≡◌, ◌≤◌, ◌<◌, ltb, length};
ghost use Rattle.std.specs.IoError.{raw_os_error};
ghost use Rattle.streams.specs.Calls.{interrupted_by, moved_by, stopped_at};

use reasons::has_number;
use std::io;
use std::io::{Error, Read, Write};

mod beside;
pub mod files;
pub mod optional;
mod paths;
mod reasons;
pub mod standard;
pub mod words;

// How often a call is tried again that a signal interrupted before a byte was moved; then it counts as failed.
const AGAIN: usize = 100;

// The system's number of a call that a signal interrupted, EINTR.
const INTERRUPTED: i32 = 4;

// How many bytes were moved, and whether a call failed after them. No Result: the count stands beside a failure too (`write_output`'s `failed_value`).
#[derive(Clone, Copy)]
pub struct Moved {
    pub failed: bool,
    pub count: usize,
}

// The same with the reason of the call that failed. One that took nothing has none.
#[derive(Clone, Copy)]
pub(crate) struct Ended {
    pub(crate) moved: Moved,
    pub(crate) why: Option<Error>,
}

// Whether a call was interrupted before a byte was moved.
fn interrupted(got: io::Result<usize>) -> bool
    ensures { result ≡ interrupted_by raw_os_error got }
{
    match got {
        Ok(_) => false,
        Err(error) => has_number(error, INTERRUPTED),
    }
}

// What a call came to that was to move these bytes.
#[tactic(auto, unfolding(crate::specs::Calls::moved_by))]
fn meant(got: io::Result<usize>, bytes: &[u8]) -> Moved
    ensures { result ≡ moved_by got (length bytes.now) }
{
    match got {
        Ok(n) => Moved {
            failed: false,
            count: n.min(bytes.len()),
        },
        Err(_) => Moved {
            failed: true,
            count: 0,
        },
    }
}

fn read_more<F: Read>(from: &mut F, room: &mut [u8]) -> Ended
    ensures count_in_bounds { result.moved.count ≤ length room.new }
    ensures count_value { result.moved.failed ≡ true → result.moved.count ≡ 0 }
{
    let mut got = from.read(room);
    for _ in 0..AGAIN {
        if !interrupted(got) {
            break;
        }
        got = from.read(room);
    }
    Ended {
        moved: meant(got, room),
        why: got.err(),
    }
}

// What reads came to that stopped at a place, at the end of the input or at one that failed.
fn stopped_at(n: usize, more: Moved) -> Moved
    ensures { result ≡ stopped_at n more }
{
    Moved {
        failed: more.failed,
        count: n,
    }
}

pub(crate) fn read_through<F: Read>(from: &mut F, room: &mut [u8]) -> Ended
    ensures count_in_bounds { result.moved.count ≤ length room.new }
    ensures count_in_bounds_2 { result.moved.failed ≡ true → result.moved.count < length room.new }
{
    let mut n: usize = 0;
    // No `for`: n goes up by what a read gave, and std's `read_exact` doesn't say how much came before a failure, as `count_in_bounds` does.
    while n < room.len() {
        let more = read_more(from, &mut room[n..]);
        if more.moved.count == 0 {
            return Ended {
                moved: stopped_at(n, more.moved),
                why: more.why,
            };
        }
        n += more.moved.count;
    }
    Ended {
        moved: Moved {
            failed: false,
            count: n,
        },
        why: None,
    }
}

// Reads until the room is full, the input ends or a read fails. Which bytes came no contract can say.
pub fn read_all<F: Read>(from: &mut F, room: &mut [u8]) -> Moved
    ensures count_in_bounds { result.count ≤ length room.new }
    ensures count_in_bounds_2 { result.failed ≡ true → result.count < length room.new }
{
    read_through(from, room).moved
}

fn write_more<F: Write>(to: &mut F, text: &[u8]) -> Ended
    ensures { result.moved.count ≤ length text.now }
{
    let mut put = to.write(text);
    for _ in 0..AGAIN {
        if !interrupted(put) {
            break;
        }
        put = to.write(text);
    }
    Ended {
        moved: meant(put, text),
        why: put.err(),
    }
}

pub(crate) fn write_through<F: Write>(to: &mut F, text: &[u8]) -> Ended
    ensures count_in_bounds { result.moved.count ≤ length text.now }
    ensures failed_value { result.moved.failed ≡ ltb result.moved.count (length text.now) }
{
    let mut n: usize = 0;
    // No `for`: n goes up by what a write took, and std's `write_all` doesn't say how much was taken before a failure, as `failed_value` does.
    while n < text.len() {
        let more = write_more(to, &text[n..]);
        if more.moved.count == 0 {
            return Ended {
                moved: Moved {
                    failed: true,
                    count: n,
                },
                why: more.why,
            };
        }
        n += more.moved.count;
    }
    Ended {
        moved: Moved {
            failed: false,
            count: n,
        },
        why: None,
    }
}

// Writes all of a text, or stops at a write that fails or takes nothing.
pub fn write_all<F: Write>(to: &mut F, text: &[u8]) -> Moved
    ensures count_in_bounds { result.count ≤ length text.now }
    ensures failed_value { result.failed ≡ ltb result.count (length text.now) }
{
    write_through(to, text).moved
}
