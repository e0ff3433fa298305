// The bytes held of a file that comes in pieces: what is left of the piece before, then what was read behind it. Internal: the functions ask for places within the space.
#![tactic(auto)]

ghost use Rattle.std.specs.Prelude.{true, false, ◌≡◌, ◌+◌, ◌-◌, ◌≤◌, length, take, drop};
ghost use Rattle.numbers.specs.Bytes.{Bytes};

use std::fs::File;
use streams::Moved;
use streams::files::read_on;
use streams::standard::read_input;

// 16,384 bytes and the longest record.
pub const SPACE: usize = 16_454;

// Where a file comes from: standard input, or the file that a word names and that was opened.
#[derive(Drop)]
pub enum Source {
    Input,
    Named(usize, File),
}

fn read_from(rt: &HostRuntime, program: &[u8], source: &mut Source, room: &mut [u8]) -> Moved
    ensures { result.count ≤ length room.new }
{
    match source {
        Source::Input => read_input(rt, program, room),
        Source::Named(word, file) => read_on(rt, program, b"read the text", *word, file, room),
    }
}

pub fn blank() -> [u8; SPACE]
    ensures { 16454 ≡ length result }
{
    [0; SPACE]
}

// Reads on behind the rest, unless the file was at its end before: a terminal isn't asked again.
pub fn refill(
    rt: &HostRuntime,
    program: &[u8],
    source: &mut Source,
    space: &mut [u8],
    rest: usize,
    ended: bool,
) -> Moved
    requires { rest ≤ length space.old }
    ensures count_in_bounds { rest + result.count ≤ length space.new }
    ensures space_unchanged { take rest space.new ≡ take rest space.old }
    ensures bytes { Bytes space.new × (ended ≡ true → (result.failed ≡ false) × (result.count ≡ 0)) }
{
    if ended {
        return Moved {
            failed: false,
            count: 0,
        };
    }
    read_from(rt, program, source, &mut space[rest..])
}

// The same from standard input.
pub fn refill_input(
    rt: &HostRuntime,
    program: &[u8],
    space: &mut [u8],
    rest: usize,
    ended: bool,
) -> Moved
    requires { rest ≤ length space.old }
    ensures count_in_bounds { rest + result.count ≤ length space.new }
    ensures space_unchanged { take rest space.new ≡ take rest space.old }
    ensures bytes { Bytes space.new × (ended ≡ true → (result.failed ≡ false) × (result.count ≡ 0)) }
{
    let mut input = Source::Input;
    refill(rt, program, &mut input, space, rest, ended)
}

// Brings the bytes from a place on to the front, and gives how many they are.
pub fn to_front(space: &mut [u8], from: usize, to: usize) -> usize
    requires { (from ≤ to) × (to ≤ length space.old) }
    ensures value { result ≡ to - from }
    ensures space_after { take result space.new ≡ take result (drop from space.old) }
{
    let n = to - from;
    for i in 0..n {
        space[i] = space[from + i];
    }
    n
}
