// Files that a program's words name. What fails is told on standard error: the program, what it can't do, the name, the system's reason.
ghost use Rattle.std.specs.Prelude.{true, false, ◌++◌, ◌≡◌, ◌≤◌, ◌<◌, length, IfOk};
ghost use Rattle.sums.specs.Choice.{pick};
ghost use Rattle.streams.specs.Calls.{failed_by, nothing_moved, within_of, and_then};
ghost use Rattle.streams.specs.Names.{beside_mark};

use crate::beside::{create_beside, put_beside};
use crate::paths::{open_read, rename, unlink};
use crate::reasons::{reason, tell_reason};
use crate::standard::tell;
use crate::{Moved, read_through, words, write_through};
use std::fs::File;
use std::io;
use std::io::Error;

// The longest name that a program's word can be, and three bytes more.
const BESIDE: usize = 4099;

// A file where it could be opened.
// The flag beside the result is what `open_named` promises, and what its theorem, `promises.SystemAside.of-streams-files-open-named`, goes by.
#[derive(Drop)]
pub struct Opened {
    pub failed: bool,
    pub file: io::Result<File>,
}

fn cannot(rt: &HostRuntime, program: &[u8], what: &[u8], name: &[u8], why: Error) {
    tell(rt, program);
    tell(rt, b": cannot ");
    tell(rt, what);
    tell(rt, b": ");
    tell(rt, name);
    tell_reason(rt, why);
}

fn nothing_moved() -> Moved
    ensures { result ≡ nothing_moved }
{
    Moved {
        failed: true,
        count: 0,
    }
}

// Of a call that failed: that is told, and nothing counts as moved.
pub(crate) fn not_moved(
    rt: &HostRuntime,
    program: &[u8],
    what: &[u8],
    name: &[u8],
    why: Error,
) -> Moved
    ensures { result ≡ nothing_moved }
{
    cannot(rt, program, what, name, why);
    nothing_moved()
}

// A move, or nothing where the call behind it failed: that is told.
#[tactic(auto, unfolding(crate::specs::Calls::and_then, sums::specs::Choice::pick))]
fn and_then(
    rt: &HostRuntime,
    program: &[u8],
    what: &[u8],
    name: &[u8],
    put: Moved,
    answer: io::Result<()>,
) -> Moved
    ensures { result ≡ and_then put answer }
{
    match answer {
        Ok(()) => put,
        Err(why) => not_moved(rt, program, what, name, why),
    }
}

// Reads from a file, which is closed then.
fn read_whole(
    rt: &HostRuntime,
    program: &[u8],
    what: &[u8],
    name: &[u8],
    file: File,
    room: &mut [u8],
) -> Moved
    ensures count_in_bounds { result.count ≤ length room.new }
    ensures count_value { result.failed ≡ true → result.count ≡ 0 }
{
    let mut from = file;
    let read = read_through(&mut from, room);
    if read.moved.failed {
        return not_moved(rt, program, what, name, reason(read.why));
    }
    read.moved
}

// Reads from a file that was opened, or that couldn't be.
pub(crate) fn read_opened(
    rt: &HostRuntime,
    program: &[u8],
    what: &[u8],
    name: &[u8],
    opened: io::Result<File>,
    room: &mut [u8],
) -> Moved
    ensures count_in_bounds { result.count ≤ length room.new }
    ensures count_value { result.failed ≡ true → result.count ≡ 0 }
    ensures opened_value { result.failed ≡ false → failed_by opened ≡ false }
{
    match opened {
        Ok(file) => read_whole(rt, program, what, name, file, room),
        Err(error) => not_moved(rt, program, what, name, error),
    }
}

// Reads the file of a name that was had whole, or that wasn't.
fn read_file(
    rt: &HostRuntime,
    program: &[u8],
    what: &[u8],
    name: &[u8],
    had: io::Result<usize>,
    room: &mut [u8],
) -> Moved
    requires { IfOk had (λ n. n ≤ length name.now) }
    ensures count_in_bounds { result.count ≤ length room.new }
    ensures count_value { result.failed ≡ true → result.count ≡ 0 }
    ensures error_value { result.failed ≡ false → failed_by had ≡ false }
{
    match had {
        Ok(n) => {
            let opened = open_read(rt, &name[..n]);
            read_opened(rt, program, what, &name[..n], opened, room)
        }
        Err(error) => not_moved(rt, program, what, b"its name", error),
    }
}

// Reads the file that a word names until the room is full or the file ends. Word 1 is the first behind the program's own name.
pub fn read_named(
    rt: &HostRuntime,
    program: &[u8],
    what: &[u8],
    word: usize,
    room: &mut [u8],
) -> Moved
    ensures count_in_bounds { result.count ≤ length room.new }
    ensures count_value { result.failed ≡ true → result.count ≡ 0 }
{
    let mut name = words::blank();
    let had = words::put(rt, word, &mut name);
    read_file(rt, program, what, &name, had, room)
}

// A file that was opened, told where that failed.
fn opened_by(
    rt: &HostRuntime,
    program: &[u8],
    what: &[u8],
    name: &[u8],
    opened: io::Result<File>,
) -> Opened
    ensures { (result.failed ≡ failed_by result.file) × (result.file ≡ opened) }
{
    match opened {
        Ok(file) => Opened {
            failed: false,
            file: Ok(file),
        },
        Err(error) => {
            cannot(rt, program, what, name, error);
            Opened {
                failed: true,
                file: Err(error),
            }
        }
    }
}

// Opens the file of a name that was had whole, or that wasn't.
fn open_file(
    rt: &HostRuntime,
    program: &[u8],
    what: &[u8],
    name: &[u8],
    had: io::Result<usize>,
) -> Opened
    requires { IfOk had (λ n. n ≤ length name.now) }
    ensures failed_value { result.failed ≡ failed_by result.file }
    ensures error_value { result.failed ≡ false → failed_by had ≡ false }
{
    match had {
        Ok(n) => {
            let opened = open_read(rt, &name[..n]);
            opened_by(rt, program, what, &name[..n], opened)
        }
        Err(error) => {
            cannot(rt, program, what, b"its name", error);
            Opened {
                failed: true,
                file: Err(error),
            }
        }
    }
}

// Opens the file that a word names. Where that fails it is told.
pub fn open_named(rt: &HostRuntime, program: &[u8], what: &[u8], word: usize) -> Opened
    ensures { result.failed ≡ failed_by result.file }
{
    let mut name = words::blank();
    let had = words::put(rt, word, &mut name);
    open_file(rt, program, what, &name, had)
}

// Reads on from the file that a word names and that was opened, until the room is full or the file ends. A read that fails is told, with the name.
pub fn read_on(
    rt: &HostRuntime,
    program: &[u8],
    what: &[u8],
    word: usize,
    file: &mut File,
    room: &mut [u8],
) -> Moved
    ensures count_in_bounds { result.count ≤ length room.new }
    ensures count_in_bounds_2 { result.failed ≡ true → result.count < length room.new }
{
    let read = read_through(file, room);
    if read.moved.failed {
        let mut name = words::blank();
        let n = words::put_or_none(rt, word, &mut name);
        cannot(rt, program, what, &name[..n], reason(read.why));
    }
    read.moved
}

// Like the system's reasons, behind the name.
fn tell_long(rt: &HostRuntime, program: &[u8], what: &[u8], name: &[u8]) {
    tell(rt, program);
    tell(rt, b": cannot ");
    tell(rt, what);
    tell(rt, b": ");
    tell(rt, name);
    tell(rt, b": it is too long\n");
}

// What was read of the file that a word names, which may have so many bytes. One that has more is told: a byte more is read, and what lies further on can't matter.
#[tactic(auto, unfolding(sums::specs::Choice::pick))]
pub fn within(
    rt: &HostRuntime,
    program: &[u8],
    what: &[u8],
    word: usize,
    read: Moved,
    longest: usize,
) -> Moved
    ensures { result ≡ within_of read longest }
{
    if longest < read.count {
        let mut name = words::blank();
        let n = words::put_or_none(rt, word, &mut name);
        tell_long(rt, program, what, &name[..n]);
        return nothing_moved();
    }
    read
}

// All of a text, on the disk and not only with the system.
#[tactic(auto, unfolding(crate::specs::Calls::and_then, sums::specs::Choice::pick))]
fn fill(
    rt: &HostRuntime,
    program: &[u8],
    what: &[u8],
    name: &[u8],
    file: &mut File,
    text: &[u8],
) -> Moved
    ensures { result.count ≡ pick result.failed 0 (length text.now) }
{
    let put = write_through(file, text);
    if put.moved.failed {
        return not_moved(rt, program, what, name, reason(put.why));
    }
    let synced = file.sync_all();
    and_then(rt, program, what, name, put.moved, synced)
}

// Fills the file, and closes it.
fn fill_whole(
    rt: &HostRuntime,
    program: &[u8],
    what: &[u8],
    name: &[u8],
    file: File,
    text: &[u8],
) -> Moved
    ensures { result.count ≡ pick result.failed 0 (length text.now) }
{
    let mut to = file;
    fill(rt, program, what, name, &mut to, text)
}

// Fills the file that was made beside, or that couldn't be, and then gives it the other's name.
#[tactic(auto, unfolding(crate::specs::Calls::and_then, sums::specs::Choice::pick))]
fn replace_by(
    rt: &HostRuntime,
    program: &[u8],
    what: &[u8],
    name: &[u8],
    beside: &[u8],
    made: io::Result<File>,
    text: &[u8],
) -> Moved
    ensures count_value { result.count ≡ pick result.failed 0 (length text.now) }
    ensures made_value { result.failed ≡ false → failed_by made ≡ false }
{
    let file = match made {
        Ok(file) => file,
        Err(error) => return not_moved(rt, program, what, name, error),
    };
    let put = fill_whole(rt, program, what, name, file, text);
    if put.failed {
        unlink(rt, beside);
        return put;
    }
    let answer = rename(rt, beside, name);
    let replaced = and_then(rt, program, what, name, put, answer);
    if replaced.failed {
        unlink(rt, beside);
    }
    replaced
}

// Writes a text whole into a new file beside, and then gives it the other's name.
fn replace_beside(
    rt: &HostRuntime,
    program: &[u8],
    what: &[u8],
    name: &[u8],
    beside: &mut [u8],
    text: &[u8],
) -> Moved
    requires { beside.old ≡ name.now ++ beside_mark }
    ensures { result.count ≡ pick result.failed 0 (length text.now) }
{
    let tried = create_beside(rt, beside);
    replace_by(rt, program, what, name, beside, tried.made, text)
}

// Writes a text beside the place of a file whose name was had whole, and brings it there whole: at any moment the old file stands there or the new one.
#[tactic(auto, unfolding(sums::specs::Choice::pick))]
fn replace_file(
    rt: &HostRuntime,
    program: &[u8],
    what: &[u8],
    name: &[u8],
    had: io::Result<usize>,
    text: &[u8],
) -> Moved
    requires had { IfOk had (λ n. n ≤ length name.now) }
    requires name { length name.now ≤ 4096 }
    ensures count_value { result.count ≡ pick result.failed 0 (length text.now) }
    ensures error_value { result.failed ≡ false → failed_by had ≡ false }
{
    match had {
        Ok(n) => {
            let mut beside = [0u8; BESIDE];
            let m = put_beside(&name[..n], &mut beside);
            replace_beside(rt, program, what, &name[..n], &mut beside[..m], text)
        }
        Err(error) => not_moved(rt, program, what, b"its name", error),
    }
}

// The same for the file that a word names: all of the text is there, or none of it.
pub fn replace_named(
    rt: &HostRuntime,
    program: &[u8],
    what: &[u8],
    word: usize,
    text: &[u8],
) -> Moved
    ensures { result.count ≡ pick result.failed 0 (length text.now) }
{
    let mut name = words::blank();
    let had = words::put(rt, word, &mut name);
    replace_file(rt, program, what, &name, had, text)
}
