// The file of losses that a word names.
ghost use Rattle.std.specs.Prelude.{◌≡◌, ◌≤◌, IfSome, is_some};
ghost use Rattle.closeouts.specs.Losses.{Came};
ghost use Rattle.closeouts.specs.LossLines.{told_of, says_losses, SaidBy, LinesCame, CameAs};

use crate::loss_lines::{Wrong, read_lines};
use crate::losses::{Losses, list};
use crate::told;
use streams::files::read_named;
use streams::words;
use streams::words::is_there;

// One byte more than 256 accounts want: what lies further on can't matter.
const ROOM: usize = 2049;

// The most bytes of a text.
const TEXT: usize = 65_536;

fn from_bytes(rt: &HostRuntime) -> Option<Losses>
    ensures count_bound { IfSome result (λ l. l.count ≤ 256) }
    ensures came { IfSome result Came }
{
    let mut bytes = [0u8; ROOM];
    let read = read_named(rt, b"closeouts", b"read the file of losses", 1, &mut bytes);
    if read.failed {
        return None;
    }
    Some(list(&bytes[..read.count]))
}

// A line that says nothing is told.
fn from_text(rt: &HostRuntime, text: &[u8]) -> Option<Losses>
    ensures count_bound { IfSome result (λ l. l.count ≤ 256) }
    ensures said_by { IfSome result (λ l. SaidBy l (told_of text.now)) }
    ensures readable { is_some result ≡ says_losses (told_of text.now) }
{
    match read_lines(text) {
        Ok(losses) => Some(losses),
        Err(Wrong { line, fault }) => {
            told::fault(rt, line, fault);
            None
        }
    }
}

fn from_lines(rt: &HostRuntime) -> Option<Losses>
    ensures count_bound { IfSome result (λ l. l.count ≤ 256) }
    ensures lines_came { IfSome result LinesCame }
{
    let mut text = [0u8; TEXT + 1];
    let read = read_named(rt, b"closeouts", b"read the file of losses", 2, &mut text);
    if read.failed {
        return None;
    }
    if TEXT < read.count {
        told::too_long(rt);
        return None;
    }
    from_text(rt, &text[..read.count])
}

// Of the first word, or of the second behind `--lines`.
pub(crate) fn from_argument(rt: &HostRuntime, lines: bool) -> Option<Losses>
    ensures count_bound { IfSome result (λ l. l.count ≤ 256) }
    ensures came_as { IfSome result (CameAs lines) }
{
    if lines {
        if is_there(words::count(rt), 2) {
            return from_lines(rt);
        }
    } else {
        if is_there(words::count(rt), 1) {
            return from_bytes(rt);
        }
    }
    told::none_named(rt);
    None
}
