// A client's margin on the currency desk: its positions and figures as text lines on standard input, its initial margin among the words. Prints the refusal or 0 and the
// margin; or, if asked, hands over the bytes of the record that sets it, for a day file.
#![tactic(auto)]

ghost use Rattle.std.specs.Prelude.{false, ◌≡◌, ◌≤◌, length};
ghost use Rattle.margins.specs.Positions.{held_in};
ghost use Rattle.margins.specs.Printed.{printed_for};

use answers::answer;
use asked::Asked;
use streams::Moved;
use streams::standard::{read_input, tell, write_output};

mod answers;
mod asked;
mod figures;
mod lines;
mod positions;
mod printed;
mod products;
mod sides;
mod told;
mod words;

// The most bytes of the input.
const INPUT: usize = 65_536;

// Hands over what is printed of the input's text, whole unless a write failed.
fn hand_over(rt: &HostRuntime, asked: Asked, text: &[u8]) -> Moved
    requires { length text.now ≤ 65_536 }
    ensures { result.failed ≡ false → result.count ≡ length (printed_for asked (held_in text.now)) }
{
    let held = positions::read(text);
    let mut out = [0u8; 70];
    let mut err = [0u8; 70];
    let said = answer(asked, held, &mut out, &mut err);
    tell(rt, &err[..said.told]);
    write_output(rt, b"margins", &out[..said.printed])
}

fn run(rt: &HostRuntime, asked: Asked) {
    let mut room = [0u8; INPUT + 1];
    let read = read_input(rt, b"margins", &mut room);
    if read.failed {
        return;
    }
    let n = read.count;
    if INPUT < n {
        told::too_long(rt);
        return;
    }
    hand_over(rt, asked, &room[..n]);
}

fn main(rt: HostRuntime) {
    let help = streams::standard::help(
        &rt,
        b"margins: a client's initial margin, the extreme loss margin of its positions and what its figures come to, on standard input a line each, PRODUCT SIDE NOTIONAL, and at most once figures PREMIUM LOSS [EXERCISE SETTLEMENT]; prints the refusal or 0 and the margin, with --record the record that sets it\nusage: margins [--record] SERIAL ACCOUNT INITIAL < POSITIONS\n",
    );
    if help.is_some() {
        return;
    }
    match asked::from_words(&rt) {
        Some(asked) => run(&rt, asked),
        None => told::bad_words(&rt),
    }
}
