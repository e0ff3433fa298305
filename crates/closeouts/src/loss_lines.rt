// The losses that a text says: a line `NUMBER AMOUNT` for each account that has one.
ghost use Rattle.std.specs.Prelude.{◌≡◌, ◌≤◌, length, IfOk};
ghost use Rattle.closeouts.specs.LossLines.{loss_said, told_of, answered};
ghost use Rattle.closeouts.specs.Inner.{PlaceAmong, Puts};

use crate::losses::Losses;
use words::{ends_at, line_end, number_at};

const NONE: u64 = 18_446_744_073_709_551_615;

#[derive(Clone, Copy)]
pub(crate) enum Loss {
    Nothing,
    Of(u16, u64),
    Bad(u8),
}

// The first line that says nothing, counted from 1, and its fault: what a `Result` fails with, so there always is one.
#[derive(Clone, Copy)]
pub(crate) struct Wrong {
    pub(crate) line: usize,
    pub(crate) fault: u8,
}

#[tactic(auto, unfolding(crate::specs::LossLines::loss_said, sums::specs::Choice::pick))]
fn loss_of(line: &[u8]) -> Loss
    ensures { result ≡ loss_said line.now }
{
    if ends_at(line, 0) {
        return Loss::Nothing;
    }
    let account = number_at(line, 0);
    let number = account.value;
    if number == NONE {
        return Loss::Bad(1);
    }
    if 65535 < number {
        return Loss::Bad(2);
    }
    let loss = number_at(line, account.next);
    let amount = loss.value;
    if amount == NONE {
        return Loss::Bad(3);
    }
    if ends_at(line, loss.next) {
        return Loss::Of(number as u16, amount);
    }
    Loss::Bad(4)
}

// The first place that has the number. They need not rise.
pub(crate) fn first_place(numbers: &[u16], n: u16) -> Option<usize>
    ensures { PlaceAmong numbers.now (length numbers.now) n result }
{
    for i in 0..numbers.len() {
        if numbers[i] == n {
            return Some(i);
        }
    }
    None
}

impl Losses {
    // One line's account and loss put, or its fault.
    fn put(&mut self, loss: Loss) -> Result<(), u8>
        requires { self.old.count ≤ 256 }
        ensures { Puts self.old loss self.new result }
    {
        match loss {
            Loss::Nothing => Ok(()),
            Loss::Bad(fault) => Err(fault),
            Loss::Of(account, amount) => {
                let n = self.count;
                if first_place(&self.numbers[..n], account).is_some() {
                    return Err(5);
                }
                if n == 256 {
                    return Err(6);
                }
                self.numbers[n] = account;
                self.list[n] = amount;
                self.count = n + 1;
                Ok(())
            }
        }
    }
}

pub(crate) fn read_lines(text: &[u8]) -> Result<Losses, Wrong>
    ensures count_bound { IfOk result (λ l. l.count ≤ 256) }
    ensures result_value { answered result ≡ told_of text.now }
{
    let mut losses = Losses::none();
    let mut line: usize = 1;
    let mut place: usize = 0;
    // A `while`: a turn goes on by its line's length.
    while place < text.len() {
        let end = line_end(text, place);
        let loss = loss_of(&text[place..end]);
        match losses.put(loss) {
            Ok(()) => {}
            Err(fault) => return Err(Wrong { line, fault }),
        }
        place = end;
        line += 1;
    }
    Ok(losses)
}
