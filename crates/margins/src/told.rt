// What goes to standard error.
ghost use Rattle.std.specs.Prelude.{◌≡◌, ◌≤◌, length};
ghost use Rattle.text.specs.Inner.{Puts};
ghost use Rattle.margins.specs.Printed.{refusal_made, refused_text, bad_text, told_made};

use currency::Made;
use streams::standard::tell;
use text::{put_number, put_text};

pub(crate) fn bad_words(rt: &HostRuntime) {
    tell(
        rt,
        b"margins: the words are not [--record] SERIAL ACCOUNT INITIAL\n",
    );
}

pub(crate) fn too_long(rt: &HostRuntime) {
    tell(rt, b"margins: standard input is too long\n");
}

pub(crate) fn put_bad(room: &mut [u8], line: u64) -> usize
    requires { 70 ≤ length room.old }
    ensures { Puts room.old 0 (bad_text line) room.new result }
{
    let p1 = put_text(room, 0, b"margins: line ");
    let p2 = put_number(room, p1, line, b' ');
    put_text(room, p2, b"is no position\n")
}

fn put_refused(room: &mut [u8], refusal: u8) -> usize
    requires { 70 ≤ length room.old }
    ensures { Puts room.old 0 (refused_text refusal) room.new result }
{
    let p = put_text(room, 0, b"margins: refused ");
    put_number(room, p, u64::from(refusal), b'\n')
}

// The refusal of what was made, or that of the day file's writer, which is 0 for none: `dayfile::fault_of` gives it so.
#[tactic(auto, unfolding(crate::specs::Printed::refusal_made))]
fn refusal_of(made: Made) -> u8
    ensures { result ≡ refusal_made made }
{
    match made {
        Made::Given(record) => dayfile::fault_of(record),
        Made::Refused(refusal) => refusal,
    }
}

#[tactic(auto, unfolding(crate::specs::Printed::told_made, sums::specs::Choice::pick))]
pub(crate) fn put_told(room: &mut [u8], as_record: bool, made: Made) -> usize
    requires { 70 ≤ length room.old }
    ensures { Puts room.old 0 (told_made as_record made) room.new result }
{
    if !as_record {
        return 0;
    }
    let refusal = refusal_of(made);
    if refusal == 0 {
        return 0;
    }
    put_refused(room, refusal)
}
