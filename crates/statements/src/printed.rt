// The line of what a check finds.
ghost use Rattle.std.specs.Prelude.{◌+◌, ◌≤◌, length};
ghost use Rattle.text.specs.Inner.{Puts};
ghost use Rattle.statements.specs.Printed.{wanted_text, finding_text};

use statement::Finding;
use text::{put_number, put_refused, put_short, put_text};

fn put_wanted(room: &mut [u8], at: usize, wanted: u16) -> usize
    requires { at + 25 ≤ length room.old }
    ensures { Puts room.old at (wanted_text wanted) room.new result }
{
    if wanted == 0 {
        return put_text(room, at, b" no account is wanted\n");
    }
    let p = put_text(room, at, b" account ");
    let q = put_short(room, p, wanted, b' ');
    put_text(room, q, b"is wanted\n")
}

pub(crate) fn put_finding(room: &mut [u8], finding: Finding) -> usize
    requires { 77 ≤ length room.old }
    ensures { Puts room.old 0 (finding_text finding) room.new result }
{
    if finding.refusal < 24 {
        return put_number(room, 0, u64::from(finding.refusal), b'\n');
    }
    let p = put_refused(room, 0, finding.refusal, finding.index, b':');
    put_wanted(room, p, finding.wanted)
}
