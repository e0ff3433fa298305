// The lines of `closeouts`, put into a room.
ghost use Rattle.std.specs.Prelude.{[], ◌∷◌, ◌++◌, ◌+◌, ◌*◌, ◌≤◌, length};
ghost use Rattle.text.specs.Numbers.{spaced};
ghost use Rattle.text.specs.Inner.{Puts};
ghost use Rattle.report.specs.Reports.{loss_lines, close_out_text};

use crate::{accounts, number_at};
use text::{put_number, put_spaced, put_text};

// Puts a word with the space behind it, then a number.
fn put_labelled(room: &mut [u8], at: usize, word: &[u8], n: u64) -> usize
    requires { at + length word.now + 21 ≤ length room.old }
    ensures { Puts room.old at (word.now ++ spaced (n ∷ [])) room.new result }
{
    let p = put_text(room, at, word);
    put_number(room, p, n, b'\n')
}

// Puts a line of six numbers: they take 126 bytes at most.
fn put_six(room: &mut [u8], at: usize, a: u64, b: u64, c: u64, d: u64, e: u64, f: u64) -> usize
    requires { at + 126 ≤ length room.old }
    ensures puts { Puts room.old at (spaced (a ∷ b ∷ c ∷ d ∷ e ∷ f ∷ [])) room.new result }
    ensures upper_bound { result ≤ at + 126 }
{
    let list = [a, b, c, d, e, f];
    put_spaced(room, at, &list)
}

// Puts the lines of the first n rows, and gives how long they are.
fn put_losses(
    room: &mut [u8],
    n: usize,
    numbers: &[u16; 256],
    losses: &[u64],
    amounts: &[u64],
) -> usize
    requires { (n ≤ 256) × (n ≤ length losses.now) × (4 * n ≤ length amounts.now) × (126 * n ≤ length room.old) }
    ensures puts { Puts room.old 0 (loss_lines numbers.now losses.now amounts.now n)
        room.new result }
    ensures upper_bound { result ≤ 126 * n }
{
    let mut at: usize = 0;
    for i in 0..n {
        let number = number_at(numbers, i);
        let k = 4 * i;
        at = put_six(
            room,
            at,
            number as u64,
            losses[i],
            amounts[k],
            amounts[k + 1],
            amounts[k + 2],
            amounts[k + 3],
        );
    }
    at
}

// Puts the refusal alone, or each account's line and the total, and gives how long they are.
pub(crate) fn put_close_out(
    room: &mut [u8],
    refusal: u8,
    total: u64,
    numbers: &[u16; 256],
    losses: &[u64],
    amounts: &[u64],
) -> usize
    requires { 65536 ≤ length room.old }
    ensures { Puts room.old 0 (close_out_text refusal total numbers.now losses.now amounts.now)
        room.new result }
{
    if refusal != 0 {
        return put_labelled(room, 0, b"refused ", refusal as u64);
    }
    let n = accounts(losses.len().min(amounts.len() / 4));
    let at = put_losses(room, n, numbers, losses, amounts);
    put_labelled(room, at, b"total ", total)
}
