// The close-out of the book after the day file on standard input, over a fresh book or the one in the file FROM, with the losses of the file LOSSES: the
// closing line, then a line for each account and the total, or the refusal. Where a file can't be read, a line on standard error alone.
#![tactic(auto)]

ghost use Rattle.std.specs.Prelude.{◌≡◌, ◌≤◌, length, take, replicate};
ghost use Rattle.sums.specs.Room.{at_start};
ghost use Rattle.report.specs.Reports.{accounts as Reports·accounts};
ghost use Rattle.table.specs.Words.{turned_back};
ghost use Rattle.closeouts.specs.Texts.{text_of};
ghost use Rattle.closeouts.specs.LossLines.{text_of_lines};

use feed::Table;
use losses::Losses;
use streams::standard::{too_many_words, write_output};
use streams::words;
use streams::words::is_same;

mod file;
mod loss_lines;
mod losses;
mod matching;
mod told;

// How many accounts have a row.
fn accounts(t: Table) -> usize
    ensures { result ≡ Reports·accounts t.count }
{
    usize::from(t.count).min(256)
}

fn zeros() -> [u64; 1024]
    ensures { result ≡ replicate 1024 0 }
{
    [0; 1024]
}

// The lines of the close-out: how long they are, and the lines in the room.
fn close_out_text(t: Table, losses: &[u64], room: &mut [u8; 65536]) -> usize
    ensures value { result ≡ length (text_of (turned_back t) losses.now) }
    ensures room_after { room.new ≡ at_start (text_of (turned_back t) losses.now) room.old }
{
    let mut amounts = zeros();
    let wanted = 4 * accounts(t);
    let closed = closeout::close_out(t, losses, &mut amounts[..wanted]);
    report::close_out_text(
        closed.refusal,
        closed.total,
        &t.numbers,
        losses,
        &amounts[..wanted],
        room,
    )
}

// The same by the losses that a text names; `refused 7` in their place where no row held has one of its numbers.
fn lines_text(t: Table, said: &Losses, room: &mut [u8; 65536]) -> usize
    requires { said.now.count ≤ 256 }
    ensures value { result ≡ length (text_of_lines (turned_back t) (take said.now.count said.now.numbers) (take said.now.count said.now.list)) }
    ensures room_after { room.new ≡ at_start (text_of_lines (turned_back t) (take said.now.count said.now.numbers) (take said.now.count said.now.list)) room.old }
{
    let n = accounts(t);
    let held = said.all_held(&t.numbers[..n]);
    if book::is_sound(t) & !held {
        return report::close_out_text(7, 0, &t.numbers, &[], &[], room);
    }
    let losses = said.row_losses(&t.numbers[..n]);
    close_out_text(t, &losses[..n], room)
}

fn close_out_lines(rt: &HostRuntime, t: Table, said: &Losses)
    requires { said.now.count ≤ 256 }
{
    let mut room = [0u8; 65536];
    let n = lines_text(t, said, &mut room);
    write_output(rt, b"closeouts", &room[..n]);
}

fn close_out(rt: &HostRuntime, t: Table, losses: &[u64]) {
    let mut room = [0u8; 65536];
    let n = close_out_text(t, losses, &mut room);
    write_output(rt, b"closeouts", &room[..n]);
}

// Whether the first word is `--lines`.
fn asks_for_lines(rt: &HostRuntime) -> bool {
    let mut word = words::blank();
    let n = words::put_or_none(rt, 1, &mut word);
    is_same(&word[..n], b"--lines")
}

fn run(rt: &HostRuntime, lines: bool, from: usize) {
    let Some(losses) = file::from_argument(rt, lines) else {
        return;
    };
    let start = feed::books::from_word(rt, b"closeouts", from);
    if start.failed {
        return;
    }
    let day = feed::whole_day(rt, b"closeouts", false, start.table);
    if day.failed {
        return;
    }
    let closed = report::closing(rt, b"closeouts", day.closing, day.read, day.done);
    if closed.failed {
        return;
    }
    if lines {
        close_out_lines(rt, day.table, &losses);
    } else {
        close_out(rt, day.table, &losses.list[..losses.count]);
    }
}

fn main(rt: HostRuntime) {
    let help = streams::standard::help(
        &rt,
        b"closeouts: carries out the day file on standard input over a fresh book, or over the one in the file FROM (- for a fresh one); the closing line, then who pays the losses in the file LOSSES, a line for each account; with --lines LOSSES is a text, a line NUMBER AMOUNT for each account that has a loss\nusage: closeouts [--lines] LOSSES [FROM] < DAYFILE\n",
    );
    if help.is_some() {
        return;
    }
    let lines = asks_for_lines(&rt);
    let from = if lines { 3 } else { 2 };
    if too_many_words(&rt, b"closeouts", from) {
        return;
    }
    run(&rt, lines, from);
}
