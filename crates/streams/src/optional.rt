// Files that a program's words name and that need not be there: one that isn't is as an empty one. What else fails is told as in `files`.
ghost use Rattle.std.specs.Prelude.{true, false, ◌&&◌, not, ◌≡◌, ◌≤◌, length, IfOk};
ghost use Rattle.std.specs.IoError.{raw_os_error};
ghost use Rattle.streams.specs.Calls.{failed_by, missing_by, no_bytes};

use crate::files::{not_moved, read_opened};
use crate::paths::open_read;
use crate::reasons::has_number;
use crate::{Moved, words};
use std::fs::File;
use std::io;

// The system's number of a file that isn't there, ENOENT.
const MISSING: i32 = 2;

// Whether a file that couldn't be opened isn't there.
fn is_missing(opened: &io::Result<File>) -> bool
    ensures { result ≡ missing_by raw_os_error opened.now }
{
    match opened {
        Ok(_) => false,
        Err(error) => has_number(*error, MISSING),
    }
}

fn no_bytes() -> Moved
    ensures { result ≡ no_bytes }
{
    Moved {
        failed: false,
        count: 0,
    }
}

// Reads from a file that was opened, or that couldn't be: nothing is told of one that isn't there.
fn read_there(
    rt: &HostRuntime,
    program: &[u8],
    what: &[u8],
    name: &[u8],
    opened: io::Result<File>,
    room: &mut [u8],
) -> Moved
    ensures count_in_bounds { result.count ≤ length room.new }
    ensures count_value { result.failed ≡ true → result.count ≡ 0 }
    ensures value { missing_by raw_os_error opened ≡ true → result ≡ no_bytes }
    ensures error_value { result.failed ≡ false → (failed_by opened && not (missing_by raw_os_error opened)) ≡ false }
{
    if is_missing(&opened) {
        return no_bytes();
    }
    read_opened(rt, program, what, name, opened, room)
}

// Reads the file of a name that was had whole, or that wasn't.
fn read_file(
    rt: &HostRuntime,
    program: &[u8],
    what: &[u8],
    name: &[u8],
    had: io::Result<usize>,
    room: &mut [u8],
) -> Moved
    requires { IfOk had (λ n. n ≤ length name.now) }
    ensures count_in_bounds { result.count ≤ length room.new }
    ensures count_value { result.failed ≡ true → result.count ≡ 0 }
    ensures error_value { result.failed ≡ false → failed_by had ≡ false }
{
    match had {
        Ok(n) => {
            let opened = open_read(rt, &name[..n]);
            read_there(rt, program, what, &name[..n], opened, room)
        }
        Err(error) => not_moved(rt, program, what, b"its name", error),
    }
}

// Reads the file that a word names until the room is full or the file ends; of a file that isn't there nothing.
pub fn read_named(
    rt: &HostRuntime,
    program: &[u8],
    what: &[u8],
    word: usize,
    room: &mut [u8],
) -> Moved
    ensures count_in_bounds { result.count ≤ length room.new }
    ensures count_value { result.failed ≡ true → result.count ≡ 0 }
{
    let mut name = words::blank();
    let had = words::put(rt, word, &mut name);
    read_file(rt, program, what, &name, had, room)
}
