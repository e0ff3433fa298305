// Calls 6 and 7: a record read from a piece, and one written into a room.
ghost use Rattle.std.specs.Prelude.{◌≤◌, length, IfSome};

use crate::call::Told;
use crate::rooms;
use crate::taken::{LIST, PIECE, length_at, record};
use dayfile::{Read, Record, Wrote};
use numbers::number8;
use text::{put_number, put_spaced, put_text};

fn put_record(room: &mut [u8], r: Record, next: usize) -> usize
    requires { 178000 ≤ length room.old }
    ensures { result ≤ length room.new }
{
    let list = [
        0,
        next as u64,
        u64::from(r.serial),
        u64::from(r.code),
        u64::from(r.account),
        u64::from(r.named),
        r.kinds.cash,
        r.kinds.deposits,
        r.kinds.guarantees,
        r.kinds.securities,
        r.pledged,
        r.margin,
    ];
    put_spaced(room, 0, &list)
}

fn put_bad_record(
    room: &mut [u8],
    reason: u8,
    next: usize,
    serial: u16,
    code: u8,
    account: u16,
) -> usize
    requires { 178000 ≤ length room.old }
    ensures { result ≤ length room.new }
{
    let list = [
        u64::from(reason),
        next as u64,
        u64::from(serial),
        u64::from(code),
        u64::from(account),
    ];
    put_spaced(room, 0, &list)
}

fn put_read(room: &mut [u8], read: Read) -> usize
    requires { 178000 ≤ length room.old }
    ensures { result ≤ length room.new }
{
    match read {
        Read::End => put_text(room, 0, b"end\n"),
        Read::Cut => put_number(room, 0, 2, b'\n'),
        Read::Good(r, next) => put_record(room, r, next),
        Read::Bad {
            reason,
            serial,
            code,
            account,
            next,
        } => put_bad_record(room, reason, next, serial, code, account),
    }
}

pub(crate) fn read_at(bytes: &[u8], room: &mut [u8]) -> Option<Told>
    requires { 178000 ≤ length room.old }
    ensures { IfSome result (λ t. (t.size ≤ length bytes.now) × (t.text ≤ length room.new)) }
{
    let to = 5 + length_at(bytes, 1, PIECE)?;
    if bytes.len() < to + 8 {
        return None;
    }
    let place = number8(bytes, to) as usize;
    let read = dayfile::read_at(&bytes[5..to], place);
    Some(Told {
        size: to + 8,
        text: put_read(room, read),
    })
}

fn refusal_of(wrote: Wrote) -> u64 {
    match wrote {
        Wrote::Written(_) => 0,
        Wrote::Refused(reason) => u64::from(reason),
    }
}

fn length_of(wrote: Wrote) -> u64 {
    match wrote {
        Wrote::Written(n) => n as u64,
        Wrote::Refused(_) => 0,
    }
}

fn put_written(room: &mut [u8], r: Record, n: usize) -> usize
    requires { (n ≤ 4096) × (178000 ≤ length room.old) }
    ensures { result ≤ length room.new }
{
    let mut bytes = rooms::lent(n, |i| (i % 256) as u8);
    let wrote = dayfile::write(r, &mut bytes[..n]);
    let mut line = rooms::widened(&bytes[..n]);
    line[0] = refusal_of(wrote);
    line[1] = length_of(wrote);
    let end = n + 2;
    rooms::put_line(room, 0, line, 0, end)
}

pub(crate) fn write(bytes: &[u8], room: &mut [u8]) -> Option<Told>
    requires { 178000 ≤ length room.old }
    ensures { IfSome result (λ t. (t.size ≤ length bytes.now) × (t.text ≤ length room.new)) }
{
    let n = length_at(bytes, 55, LIST)?;
    let r = record(bytes, 1);
    Some(Told {
        size: 59,
        text: put_written(room, r, n),
    })
}
