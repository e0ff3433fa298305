// What is printed of what was made.
ghost use Rattle.std.specs.Prelude.{[], ◌∷◌, ◌≤◌, length};
ghost use Rattle.sums.specs.Choice.{pick};
ghost use Rattle.text.specs.Numbers.{spaced};
ghost use Rattle.text.specs.Inner.{Puts};
ghost use Rattle.margins.specs.Printed.{line_made, record_written, record_made};

use currency::Made;
use dayfile::{Record, Wrote};

fn put_pair(room: &mut [u8], refusal: u64, margin: u64) -> usize
    requires { 70 ≤ length room.old }
    ensures { Puts room.old 0 (spaced (refusal ∷ margin ∷ [])) room.new result }
{
    let list = [refusal, margin];
    text::put_spaced(room, 0, &list)
}

// "the refusal or 0, then the margin (0 with a refusal)"
#[tactic(auto, unfolding(crate::specs::Printed::line_made))]
fn put_line(room: &mut [u8], made: Made) -> usize
    requires { 70 ≤ length room.old }
    ensures { Puts room.old 0 (line_made made) room.new result }
{
    match made {
        Made::Given(record) => put_pair(room, 0, record.margin),
        Made::Refused(refusal) => put_pair(room, u64::from(refusal), 0),
    }
}

fn put_written(room: &mut [u8], record: Record) -> usize
    requires { 70 ≤ length room.old }
    ensures { Puts room.old 0 (record_written «record») room.new result }
{
    match dayfile::write(record, room) {
        Wrote::Written(n) => n,
        Wrote::Refused(_) => 0,
    }
}

#[tactic(auto, unfolding(crate::specs::Printed::record_made))]
fn put_record(room: &mut [u8], made: Made) -> usize
    requires { 70 ≤ length room.old }
    ensures { Puts room.old 0 (record_made made) room.new result }
{
    match made {
        Made::Given(record) => put_written(room, record),
        Made::Refused(_) => 0,
    }
}

#[tactic(auto, unfolding(sums::specs::Choice::pick))]
pub(crate) fn put_made(room: &mut [u8], as_record: bool, made: Made) -> usize
    requires { 70 ≤ length room.old }
    ensures { Puts room.old 0 (pick as_record (record_made made) (line_made made)) room.new result }
{
    if as_record {
        return put_record(room, made);
    }
    put_line(room, made)
}
