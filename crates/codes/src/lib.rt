// What each code decides on the table's words in place, by the lines of the table of refusals, and the words that it puts. A verdict reads kept needs (K3) and changes none.
// Refusals stay the documents' numbers, 0 for none: `early_number` gives them so.
#![tactic(auto)]

ghost use Rattle.std.specs.Prelude.{◌≡◌, true, ◌≤◌};
ghost use Rattle.rows.specs.Rows.{ceiling};
ghost use Rattle.rows.specs.Facts.{KindsWithin};
ghost use Rattle.rows.specs.Ranges.{ceilings};
ghost use Rattle.codes.specs.Own.{alive_in, early_number, deemed_under_in, Held};
ghost use Rattle.codes.specs.OneKind.{only_kind};
ghost use Rattle.codes.specs.Asking.{names_kinds, names_one, AnswersKinds, AnswersOne};

use dayfile::Record;
use one_kind::{Kind, allocate_kind, hand_back_kind, receive_kind, release_kind};
use own::{
    allocate, hand_back, pledge, receive, release, revise_margin, set_margin, set_pledged, unpledge,
};
use rows::Kinds;
use table::Marks;

pub mod asked;
pub mod one_kind;
pub mod own;
pub mod settling;

// An account's number was given, and it is live.
fn alive(live: &[bool; 256], count: u16, a: u16) -> bool
    requires { count ≤ 256 }
    ensures { result ≡ alive_in live.now count a }
{
    if count <= a {
        return false;
    }
    live[a as usize]
}

// The first of the lines before 8 that applies, or 0: the record's own, and then whether the account is live.
fn early(live: &[bool; 256], count: u16, serial: u16, r: Record) -> u8
    requires { count ≤ 256 }
    ensures { result ≡ early_number (alive_in live.now count r.account) serial r }
{
    if r.serial != serial {
        return 3;
    }
    let fault = dayfile::fault_of(r);
    if fault != 0 {
        return fault;
    }
    if alive(live, count, r.account) { 0 } else { 7 }
}

// The codes that name kinds, 4 to 7; `on` is the account's mode before the record, which K5 asks for.
pub fn amend_kinds(
    marks: &Marks,
    w: &mut [u64; 2560],
    needs: &[u64; 256],
    on: bool,
    i: usize,
    code: u8,
    k: Kinds,
) -> u8
    requires { Held marks.now w.old (deemed_under_in w.old needs.now) i × KindsWithin k ceilings × (names_kinds code ≡ true) }
    ensures { AnswersKinds marks.now w.old (deemed_under_in w.old needs.now) on i code k result w.new }
{
    match code {
        4 => receive(marks, w, i, k),
        5 => hand_back(marks, w, i, k),
        6 => allocate(marks, w, i, k),
        _ => release(marks, w, needs, on, i, k),
    }
}

// The same where one kind alone is named.
pub fn amend_only(
    marks: &Marks,
    w: &mut [u64; 2560],
    needs: &[u64; 256],
    on: bool,
    i: usize,
    code: u8,
    kind: Kind,
    x: u64,
) -> u8
    requires { Held marks.now w.old (deemed_under_in w.old needs.now) i × KindsWithin (only_kind kind x) ceilings × (names_kinds code ≡ true) }
    ensures { AnswersKinds marks.now w.old (deemed_under_in w.old needs.now) on i code (only_kind kind x) result w.new }
{
    match code {
        4 => receive_kind(marks, w, i, kind, x),
        5 => hand_back_kind(marks, w, i, kind, x),
        6 => allocate_kind(marks, w, i, kind, x),
        _ => release_kind(marks, w, needs, on, i, kind, x),
    }
}

// The codes that name one amount, 8, 9, 10, 12 and 13; likewise.
pub fn amend_one(
    marks: &Marks,
    w: &mut [u64; 2560],
    needs: &[u64; 256],
    on: bool,
    i: usize,
    code: u8,
    y: u64,
) -> u8
    requires { Held marks.now w.old (deemed_under_in w.old needs.now) i × (y ≤ ceiling) × (names_one code ≡ true) }
    ensures { AnswersOne marks.now w.old (deemed_under_in w.old needs.now) on i code y result w.new }
{
    match code {
        8 => pledge(marks, w, i, y),
        9 => unpledge(marks, w, needs, on, i, y),
        10 => set_margin(marks, w, needs, i, y),
        12 => set_pledged(marks, w, i, y),
        _ => revise_margin(marks, w, i, y),
    }
}
