// A program's words, and what is made of them and of how many there are. Word 0 is its own name.
ghost use Rattle.std.specs.Prelude.{◌≡◌, ◌≤◌, length, IfOk};
ghost use Rattle.streams.specs.Words.{is_there, too_many, same_bytes};

use std::env::FillError;
use std::io;
use std::io::Error;
use std::rt::Env;

// The longest word that is had whole. The longest path has a byte less.
pub const LONGEST: usize = 4096;

// The system's numbers of a word that isn't there, EINVAL, and of one that is too long, ENAMETOOLONG.
const NONE: i32 = 22;

const TOO_LONG: i32 = 36;

// A word's bytes are put here.
pub fn blank() -> [u8; LONGEST]
    ensures { 4096 ≡ length result }
{
    [0; LONGEST]
}

// Puts the word at a place into a room, and gives its length, or why it wasn't had whole.
pub fn put(rt: &HostRuntime, word: usize, room: &mut [u8]) -> io::Result<usize>
    ensures { IfOk result (λ n. n ≤ length room.new) }
{
    match rt.arg(word, room) {
        Ok(n) => Ok(n),
        Err(FillError::NotPresent) => Err(Error::from_raw_os_error(NONE)),
        Err(FillError::TooLong) => Err(Error::from_raw_os_error(TOO_LONG)),
    }
}

// The same for a word that counts as empty where it wasn't had whole.
pub fn put_or_none(rt: &HostRuntime, word: usize, room: &mut [u8]) -> usize
    ensures { result ≤ length room.new }
{
    rt.arg(word, room).unwrap_or(0)
}

fn is_missing(rt: &HostRuntime, word: usize) -> bool {
    let mut room = [0u8; 1];
    matches!(rt.arg(word, &mut room), Err(FillError::NotPresent))
}

// How many words there are, the program's own name among them.
pub fn count(rt: &HostRuntime) -> usize {
    for word in 0..usize::MAX {
        if is_missing(rt, word) {
            return word;
        }
    }
    usize::MAX
}

// Whether there is a word at a place.
pub fn is_there(count: usize, word: usize) -> bool
    ensures { result ≡ is_there count word }
{
    word < count
}

// Whether there are more words behind the program's own name than it takes.
pub fn too_many(count: usize, most: usize) -> bool
    ensures { result ≡ too_many count most }
{
    if count <= most {
        return false;
    }
    1 < count - most
}

// Whether a word is just these bytes.
pub fn is_same(word: &[u8], bytes: &[u8]) -> bool
    ensures { result ≡ same_bytes word.now bytes.now }
{
    word == bytes
}
