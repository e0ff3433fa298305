// The names beside a file's own, by which its new bytes are written before they are brought to its place.
ghost use Rattle.std.specs.Prelude.{◌++◌, ◌≡◌, ◌+◌, ◌≤◌, ◌<◌, length, take};
ghost use Rattle.std.specs.IoError.{raw_os_error};
ghost use Rattle.streams.specs.Names.{beside_mark, name_of, taken_by, LastTry};

use crate::paths::create;
use crate::reasons::has_number;
use std::fs::File;
use std::io;

// The last of a hundred tries.
const LAST: usize = 99;

// The system's number of a name that is taken, EEXIST.
const TAKEN: i32 = 17;

// What a try came to: the file that was made, or why it wasn't.
#[derive(Drop)]
pub(crate) struct Tried {
    pub(crate) made: io::Result<File>,
    pub(crate) tries: usize,
}

// A name, and `.00` behind it: its length.
pub(crate) fn put_beside(name: &[u8], room: &mut [u8]) -> usize
    requires { length name.now + 3 ≤ length room.old }
    ensures value { result ≡ length name.now + 3 }
    ensures room_after { take result room.new ≡ name.now ++ beside_mark }
{
    let n = name.len();
    room[..n].copy_from_slice(name);
    room[n..n + 3].copy_from_slice(b".00");
    n + 3
}

// Puts the digits of a try at the name's end.
fn put_try(name: &mut [u8], tries: usize)
    requires { (2 ≤ length name.old) × (tries < 100) }
    ensures { name.new ≡ name_of tries name.old }
{
    let last = name.len() - 1;
    name[last - 1] = b'0' + (tries / 10) as u8;
    name[last] = b'0' + (tries % 10) as u8;
}

// Whether a file of that name was there.
fn is_taken(made: &io::Result<File>) -> bool
    ensures { result ≡ taken_by raw_os_error made.now }
{
    match made {
        Ok(_) => false,
        Err(error) => has_number(*error, TAKEN),
    }
}

fn create_try(rt: &HostRuntime, name: &mut [u8], tries: usize) -> Tried
    requires { (2 ≤ length name.old) × (tries < 100) }
    ensures tries_value { result.tries ≡ tries }
    ensures name_after { name.new ≡ name_of tries name.old }
{
    put_try(name, tries);
    let made = create(rt, name);
    Tried { made, tries }
}

// Makes a file that isn't there yet, by the first of a hundred names that is free: a run that was cut off may have left one.
pub(crate) fn create_beside(rt: &HostRuntime, name: &mut [u8]) -> Tried
    requires { 3 ≤ length name.old }
    ensures { LastTry name.old name.new result }
{
    for tries in 0..LAST {
        let tried = create_try(rt, name, tries);
        if !is_taken(&tried.made) {
            return tried;
        }
    }
    create_try(rt, name, LAST)
}
