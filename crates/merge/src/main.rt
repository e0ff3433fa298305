// Makes one day file of two counters' (K14): the records of the file A and then those of the file B, numbered from the next serial of the book in the file FROM, or from 0. A refusal is told
// on standard error, and nothing is written then.
#![tactic(auto)]

ghost use Rattle.std.specs.Prelude.{◌≤◌, length};

use merging::Merged;
use streams::files::{read_named, within};
use streams::standard::write_output;
use streams::{Moved, standard, words};

// The most bytes of each file, of both, and one more than the longest.
const LONGEST: usize = 1_048_576;

const BOTH: usize = 2_097_152;

const ROOM: usize = 1_048_577;

fn too_few_words(rt: &HostRuntime) -> bool {
    let few = !words::is_there(words::count(rt), 2);
    if few {
        standard::tell(
            rt,
            b"merge: it takes two words, A and B, and then FROM where it is wanted\n",
        );
    }
    few
}

fn read(rt: &HostRuntime, word: usize, room: &mut [u8]) -> Moved
    ensures { result.count ≤ length room.new }
{
    let read = read_named(rt, b"merge", b"read the day file", word, room);
    within(rt, b"merge", b"read the day file", word, read, LONGEST)
}

// The file's name is the word of its number. 15 can't be: the room has both files' most bytes.
fn tell(rt: &HostRuntime, merged: Merged) {
    let mut name = words::blank();
    let n = words::put_or_none(rt, usize::from(merged.file), &mut name);
    let mut line = [0u8; 52];
    let k = text::put_refused(&mut line, 0, merged.refusal, merged.index, b'\n');
    standard::tell(rt, b"merge: ");
    standard::tell(rt, &name[..n]);
    standard::tell(rt, b": ");
    standard::tell(rt, &line[..k]);
}

// The room is lent whole, as its type says how long it is; each is made once, since a copy of it fills the stack.
fn merge(rt: &HostRuntime, room: &mut [u8; BOTH], a: &[u8], b: &[u8], next: u16) {
    let merged = merging::merge(a, b, next, room);
    if merged.refusal != 0 {
        tell(rt, merged);
        return;
    }
    let n = merged.length;
    write_output(rt, b"merge", &room[..n]);
}

// Both files are read before FROM is, each into a room that has a byte more than the longest.
fn run(rt: &HostRuntime, a: &mut [u8; ROOM], b: &mut [u8; ROOM], room: &mut [u8; BOTH]) {
    let in_a = read(rt, 1, a);
    if in_a.failed {
        return;
    }
    let in_b = read(rt, 2, b);
    if in_b.failed {
        return;
    }
    let from = feed::books::from_word(rt, b"merge", 3);
    if from.failed {
        return;
    }
    merge(
        rt,
        room,
        &a[..in_a.count],
        &b[..in_b.count],
        from.table.serial,
    );
}

fn main(rt: HostRuntime) {
    let help = streams::standard::help(
        &rt,
        b"merge: makes one day file of two counters', the records of the file A and then those of the file B, numbered from the next serial of the book in the file FROM, or from 0; a file that can't be merged is told on standard error with its refusal and the record at fault, counted from 0, and nothing is written\nusage: merge A B [FROM] > MERGED\n",
    );
    if help.is_some() {
        return;
    }
    if streams::standard::too_many_words(&rt, b"merge", 3) {
        return;
    }
    if too_few_words(&rt) {
        return;
    }
    let mut a = [0; ROOM];
    let mut b = [0; ROOM];
    let mut room = [0; BOTH];
    run(&rt, &mut a, &mut b, &mut room);
}
