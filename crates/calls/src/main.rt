// Library calls from outside: calls one after the other on standard input, a line for each on standard output. So an
// independent program can be held against every call on any book, sound or not.
#![tactic(auto)]

use held::more;
use lines::written;

mod archived;
mod asked;
mod call;
mod carried;
mod changed;
mod checked;
mod closed;
mod exposed;
mod held;
mod lines;
mod margins;
mod passed;
mod pieces;
mod rooms;
mod taken;

// More calls than any input holds: the loop must have an end.
const MOST: u64 = u64::MAX;

// Answers the calls up to the end of the input, or up to what is no call.
fn run(rt: &HostRuntime) {
    let mut space = held::blank();
    let mut room = lines::blank();
    let mut at: usize = 0;
    let mut end: usize = 0;
    let mut ended = false;
    let mut put: usize = 0;
    for answered in 0..MOST {
        // The lines of what came before a failed read are written too.
        let Some(stands) = more(rt, &mut space, at, end, ended) else {
            break;
        };
        let from = stands.at;
        let to = stands.end;
        if from == to {
            break;
        }
        let Some(told) = call::answer(&space[from..to], &mut room, put) else {
            lines::write_bad(rt, &mut room, put, answered);
            return;
        };
        let Some(left) = written(rt, &room, put + told.text) else {
            return;
        };
        at = from + told.size;
        end = to;
        ended = stands.ended;
        put = left;
    }
    lines::write(rt, &room, put);
}

fn main(rt: HostRuntime) {
    let help = streams::standard::help(
        &rt,
        b"calls: answers the library calls on standard input, a byte for the call and then its arguments; a line for each\nusage: calls < CALLS\n",
    );
    if help.is_some() {
        return;
    }
    run(&rt);
}
