// A bundle of small days on standard input, each with four bytes of length, high byte first, in front. For each day what
// `day` prints, then what `standings` prints without its closing line.
#![tactic(auto)]

ghost use Rattle.std.specs.Prelude.{◌<◌, IfSome};

use streams::standard::{read_input, write_output};

// Each day takes four bytes or more of at most 256 KB.
const DAYS: u32 = 65_536;

// How many bytes the next day has, by the length in front of it: a bundle's days have fewer than 4,096 bytes.
fn size(rt: &HostRuntime) -> Option<usize>
    ensures { IfSome result (λ n. n < 4096) }
{
    let mut head = [0u8; 4];
    let got = read_input(rt, b"days", &mut head);
    if got.count < 4 {
        return None;
    }
    let size = u32::from_be_bytes(head) as usize;
    (size < 4096).then_some(size)
}

// A day of fewer than 4,096 bytes has at most 682 records: their lines take one call. Answers whether all of it was printed.
fn run_day(rt: &HostRuntime, bytes: &[u8]) -> bool {
    let mut room = [0u8; 65536];
    let lined = lines::lines(book::fresh(), bytes, feed::MILLION, &mut room);
    let n = lined.text;
    let put = write_output(rt, b"days", &room[..n]);
    if put.failed {
        return false;
    }
    let closed = report::closing(rt, b"days", lined.closing, lined.read, lined.done);
    if closed.failed {
        return false;
    }
    let stood = report::standings(rt, b"days", lined.table);
    !stood.failed
}

// Reads the next day and runs it, and answers whether there was one. What is cut short ends the bundle.
fn next_day(rt: &HostRuntime) -> bool {
    let mut room = streams::words::blank();
    let Some(n) = size(rt) else {
        return false;
    };
    let got = read_input(rt, b"days", &mut room[..n]);
    if got.count < n {
        return false;
    }
    run_day(rt, &room[..n])
}

fn main(rt: HostRuntime) {
    let help = streams::standard::help(
        &rt,
        b"days: carries out a bundle of small days on standard input, each over a fresh book; for each what `day` prints, then how each account stands\nusage: days < BUNDLE\n",
    );
    if help.is_some() {
        return;
    }
    for _ in 0..DAYS {
        if !next_day(&rt) {
            break;
        }
    }
}
