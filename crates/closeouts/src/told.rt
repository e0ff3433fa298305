// What is told on standard error.
ghost use Rattle.std.specs.Prelude.{◌+◌, ◌≤◌, length};
ghost use Rattle.text.specs.Inner.{Puts};
ghost use Rattle.closeouts.specs.LossLines.{fault_words, fault_text};

use streams::standard::tell;
use text::{put_number, put_text};

pub(crate) fn none_named(rt: &HostRuntime) {
    tell(
        rt,
        b"closeouts: cannot read the file of losses: none is named\n",
    );
}

pub(crate) fn too_long(rt: &HostRuntime) {
    tell(rt, b"closeouts: the file of losses is too long\n");
}

fn put_words(room: &mut [u8], at: usize, fault: u8) -> usize
    requires { at + 40 ≤ length room.old }
    ensures { Puts room.old at (fault_words fault) room.new result }
{
    match fault {
        1 => put_text(room, at, b" no number\n"),
        2 => put_text(room, at, b" a number above 65535\n"),
        3 => put_text(room, at, b" no amount\n"),
        4 => put_text(room, at, b" something more in the line\n"),
        5 => put_text(room, at, b" the same account twice\n"),
        _ => put_text(room, at, b" more than 256 lines that say something\n"),
    }
}

fn put_fault(room: &mut [u8], line: usize, fault: u8) -> usize
    requires { 80 ≤ length room.old }
    ensures { Puts room.old 0 (fault_text line fault) room.new result }
{
    let p = put_text(room, 0, b"closeouts: line ");
    let q = put_number(room, p, line as u64, b':');
    put_words(room, q, fault)
}

pub(crate) fn fault(rt: &HostRuntime, line: usize, fault: u8) {
    let mut room = [0u8; 80];
    let n = put_fault(&mut room, line, fault);
    tell(rt, &room[..n]);
}
