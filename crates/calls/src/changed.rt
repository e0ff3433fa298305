// A book that came back, told by what differs from the one handed over.
ghost use Rattle.std.specs.Prelude.{◌+◌, ◌≤◌, ◌<◌, length};

use crate::rooms::{LINE, put_line};
use desk::Table;
use text::put_text;

// Whether any of the ten amounts of account i differs.
fn amounts_differ(a: &[u64; 2560], b: &[u64; 2560], i: usize) -> bool
    requires { i < 256 }
{
    for k in 0..10 {
        if a[256 * k + i] != b[256 * k + i] {
            return true;
        }
    }
    false
}

// Puts the ten amounts of account i.
fn put_amounts(list: &mut [u64; 4355], n: usize, i: usize, w: &[u64; 2560])
    requires { (i < 256) × (n + 10 ≤ 4355) }
{
    for k in 0..10 {
        list[n + k] = w[256 * k + i];
    }
}

// Puts place i and its sixteen words in the file's order, unless it is as it was, and gives the place after them.
fn put_place(
    list: &mut [u64; 4355],
    n: usize,
    i: usize,
    changed: bool,
    number: u16,
    sort: u8,
    live: bool,
    tm: u16,
    mode: bool,
    need: u64,
    w: &[u64; 2560],
) -> usize
    requires { (i < 256) × (n + 17 ≤ 4355) }
    ensures { (n ≤ result) × (result ≤ n + 17) }
{
    if !changed {
        return n;
    }
    list[n] = i as u64;
    list[n + 1] = u64::from(number);
    list[n + 2] = u64::from(sort);
    list[n + 3] = u64::from(live);
    list[n + 4] = u64::from(tm);
    put_amounts(list, n + 5, i, w);
    list[n + 15] = u64::from(mode);
    list[n + 16] = need;
    n + 17
}

// "its count, its serial (from K11 on: and its next number) and, for each of the 256 places of which any word differs, in
// rising order, the place and all its .. sixteen words in the file's order"
fn put_changes(list: &mut [u64; 4355], a: Table, b: Table) -> usize
    ensures { (3 ≤ result) × (result ≤ 4355) }
{
    list[0] = u64::from(b.count);
    list[1] = u64::from(b.serial);
    list[2] = u64::from(b.next);
    let mut n: usize = 3;
    for i in 0..256 {
        let number = b.numbers[i];
        let sort = b.marks.sort[i];
        let live = b.marks.live[i];
        let tm = b.marks.tm[i];
        let mode = b.modes[i];
        let need = b.needs[i];
        let marks = (a.marks.sort[i] != sort) | (a.marks.live[i] != live) | (a.marks.tm[i] != tm);
        let kept = (a.modes[i] != mode) | (a.needs[i] != need) | (a.numbers[i] != number);
        let changed = marks | kept | amounts_differ(&a.amounts, &b.amounts, i);
        n = put_place(
            list, n, i, changed, number, sort, live, tm, mode, need, &b.amounts,
        );
    }
    n
}

// Puts the line's last part, at most 86,058 bytes.
pub(crate) fn put_book(room: &mut [u8], at: usize, before: Table, after: Table) -> usize
    requires { at + 91455 ≤ length room.old }
    ensures { result ≤ length room.new }
{
    let mut list = [0u64; LINE];
    let n = put_changes(&mut list, before, after);
    let marks = (before.count == after.count)
        & (before.serial == after.serial)
        & (before.next == after.next);
    if marks & (n == 3) {
        return put_text(room, at, b"same\n");
    }
    put_line(room, at, list, 0, n)
}
