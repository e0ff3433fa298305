// A statement's records held against the live clients of a TM, one by one.
// Refusals stay the documents' numbers, 0 for none: `wanted_refusal` gives them so.
ghost use Rattle.std.specs.Prelude.{◌≡◌, ◌≤◌, ◌<◌, length};
ghost use Rattle.rows.specs.Rows.{row_at, number_at, is_live_client_of};
ghost use Rattle.rows.specs.Facts.{KindsWithin};
ghost use Rattle.rows.specs.Ranges.{ceilings};
ghost use Rattle.rows.specs.Inner.{Ranged};
ghost use Rattle.table.specs.Words.{turned_back};
ghost use Rattle.statement.specs.Statements.{total_of, live_clients, finding_from};
ghost use Rattle.statement.specs.Inner.{wanted_refusal};

use crate::records::{record_fault, size_at, surplus_fault};
use crate::{Finding, found};
use rows::Kinds;
use table::Table;
use table::places::kinds_at;

fn total(k: Kinds) -> u64
    requires { KindsWithin k ceilings }
    ensures { result ≡ total_of k }
{
    k.cash + k.deposits + k.guarantees + k.securities
}

// Whether the row at a place is a live client's of the TM at place tm.
fn is_live_client(t: &Table, tm: u16, i: usize) -> bool
    requires { i < 256 }
    ensures { result ≡ is_live_client_of (turned_back t.now) tm i }
{
    (t.marks.sort[i] == 2) & (t.marks.tm[i] == tm) & t.marks.live[i]
}

// The refusal of what stands at a place where the record of the client at place i is wanted, or 0.
fn client_fault(t: &Table, i: usize, statement: &[u8], at: usize) -> u8
    requires { Ranged (turned_back t.now) × (i < t.now.count) × (at ≤ length statement.now) }
    ensures { result ≡ wanted_refusal statement.now at (number_at (turned_back t.now) i)
        (total_of (row_at (turned_back t.now) i).received) (total_of (row_at (turned_back t.now) i).allocated) }
{
    let received = total(kinds_at(&t.amounts, 0, i));
    let allocated = total(kinds_at(&t.amounts, 4, i));
    record_fault(statement, at, t.numbers[i], received, allocated)
}

// What is found where the records are held against the live clients of the TM at place tm.
pub(crate) fn records_finding(t: &Table, tm: u16, statement: &[u8]) -> Finding
    requires { Ranged (turned_back t.now) }
    ensures { result ≡ finding_from (turned_back t.now) 0 (live_clients (turned_back t.now) tm) statement.now }
{
    let n = t.count as usize;
    let mut at: usize = 0;
    let mut index: usize = 0;
    for i in 0..n {
        if is_live_client(t, tm, i) {
            let refusal = client_fault(t, i, statement, at);
            if refusal != 0 {
                return found(refusal, index, t.numbers[i]);
            }
            at += size_at(statement, at);
            index += 1;
        }
    }
    if at < statement.len() {
        return found(surplus_fault(statement, at), index, 0);
    }
    found(0, 0, 0)
}
