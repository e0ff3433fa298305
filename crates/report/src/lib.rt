// What the programs print behind the records' lines: each text is made in a room and then handed over at once.
#![tactic(auto)]

ghost use Rattle.std.specs.Prelude.{true, false, ◌≡◌, ◌≤◌, ◌<◌, ltb, length, take, get_or, IfNone, IfSome};
ghost use Rattle.lines.specs.Lines.{closing_line_of};
ghost use Rattle.sums.specs.Room.{at_start};
ghost use Rattle.table.specs.Words.{turned_back};
ghost use Rattle.book.specs.Sound.{sound_b};
ghost use Rattle.report.specs.Reports.{accounts as Reports·accounts, standings_text, needs_text, close_out_text};
ghost use Rattle.report.specs.Holdings.{holdings_text};
ghost use Rattle.report.specs.Inner.{Tested};

pub use records::Closing;
use rows::needs::zeros;
pub use streams::Moved;
use streams::standard::write_output;
pub use table::{Marks, Table};

mod holding;
mod listing;
mod loss;
mod need;
mod standing;

// How many rows are listed.
fn accounts(count: usize) -> usize
    ensures { result ≡ Reports·accounts count }
{
    count.min(256)
}

// The number of the row at a place.
fn number_at(numbers: &[u16; 256], i: usize) -> u16
    requires { i < 256 }
    ensures { result ≡ get_or numbers.now i 0 }
{
    numbers[i]
}

// The needs of a book's rows, where it is sound: it is tested once, by the call for all needs.
fn all_needs(t: Table, n: usize) -> Option<[u64; 256]>
    requires { n ≡ Reports·accounts t.count }
    ensures unsound { IfNone result (sound_b (turned_back t) ≡ false) }
    ensures tested { IfSome result (λ needs. Tested (turned_back t) true (take n needs) × (length needs ≡ 256)) }
{
    let mut needs = zeros();
    if book::needs(t, &mut needs[..n]) != 0 {
        return None;
    }
    Some(needs)
}

// The lines of all accounts' standings: how long they are, and the lines in the room.
pub fn standings_text(t: Table, room: &mut [u8; 65536]) -> usize
    ensures value { result ≡ length (standings_text (turned_back t)) }
    ensures room_after { room.new ≡ at_start (standings_text (turned_back t)) room.old }
{
    let n = accounts(t.count as usize);
    standing::put_standings(room, t, n)
}

// The lines of all rows held, with what the book has of each and its use: how long they are, and the lines in the room.
pub fn holdings_text(t: Table, room: &mut [u8; 65536]) -> usize
    ensures value { result ≡ length (holdings_text (turned_back t)) }
    ensures room_after { room.new ≡ at_start (holdings_text (turned_back t)) room.old }
{
    holding::put_holdings(room, t)
}

// The lines of all accounts' needs: how long they are, and the lines in the room.
pub fn needs_text(t: Table, room: &mut [u8; 65536]) -> usize
    ensures value { result ≡ length (needs_text (turned_back t)) }
    ensures room_after { room.new ≡ at_start (needs_text (turned_back t)) room.old }
{
    let n = accounts(t.count as usize);
    need::put_needs(room, t, n)
}

// The lines of a close-out, by the numbers of the rows: how long they are, and the lines in the room.
pub fn close_out_text(
    refusal: u8,
    total: u64,
    numbers: &[u16; 256],
    losses: &[u64],
    amounts: &[u64],
    room: &mut [u8; 65536],
) -> usize
    ensures value { result ≡ length (close_out_text refusal total numbers.now losses.now amounts.now) }
    ensures room_after { room.new ≡ at_start (close_out_text refusal total numbers.now losses.now amounts.now)
        room.old }
{
    loss::put_close_out(room, refusal, total, numbers, losses, amounts)
}

// Prints the closing line for the program named: "`end`, `cut` or `long`, then records read .. and records carried out".
pub fn closing(rt: &HostRuntime, program: &[u8], word: Closing, read: u64, done: u64) -> Moved
    ensures count_in_bounds { result.count ≤ length (closing_line_of word read done) }
    ensures failed_value { result.failed ≡ ltb result.count (length (closing_line_of word read done)) }
{
    let mut room = [0u8; 64];
    let n = lines::closing_line(word, read, done, &mut room);
    write_output(rt, program, &room[..n])
}

// Prints the lines of all accounts' standings for the program named. Three are of one shape: a closure for the text would need a contract that is longer than their bodies.
pub fn standings(rt: &HostRuntime, program: &[u8], t: Table) -> Moved
    ensures count_in_bounds { result.count ≤ length (standings_text (turned_back t)) }
    ensures failed_value { result.failed ≡ ltb result.count (length (standings_text (turned_back t))) }
{
    let mut room = [0u8; 65536];
    let n = standings_text(t, &mut room);
    write_output(rt, program, &room[..n])
}

// Prints the lines of all rows held for the program named.
pub fn holdings(rt: &HostRuntime, program: &[u8], t: Table) -> Moved
    ensures count_in_bounds { result.count ≤ length (holdings_text (turned_back t)) }
    ensures failed_value { result.failed ≡ ltb result.count (length (holdings_text (turned_back t))) }
{
    let mut room = [0u8; 65536];
    let n = holdings_text(t, &mut room);
    write_output(rt, program, &room[..n])
}

// Prints the lines of all accounts' needs for the program named.
pub fn needs(rt: &HostRuntime, program: &[u8], t: Table) -> Moved
    ensures count_in_bounds { result.count ≤ length (needs_text (turned_back t)) }
    ensures failed_value { result.failed ≡ ltb result.count (length (needs_text (turned_back t))) }
{
    let mut room = [0u8; 65536];
    let n = needs_text(t, &mut room);
    write_output(rt, program, &room[..n])
}
