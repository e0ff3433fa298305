// One record carried out on the table's words in place: decided by its code, then kept needs (K3) and modes (K2) follow.
// Refusals stay the documents' numbers, 0 for none: `gone_with` gives them so.
#![tactic(auto)]

ghost use Rattle.std.specs.Prelude.{◌≡◌, ◌<◌, true};
ghost use Rattle.rules.specs.Refusals.{is_opening};
ghost use Rattle.codes.specs.Asking.{Heads, record_at};
ghost use Rattle.steps.specs.Steps.{ReadyFor, DecidedFor, modes_in, at_after, Going, GoingFor, SteppedFor, SteppedOn, gone_with};

use codes::asked::{Asked, Head, asked_at, asked_of};
use codes::own::{open, retire};
use codes::{amend_kinds, amend_one, amend_only};
use dayfile::Record;
use following::{follow, mode_of};
use lookup::place_among;
use rows::needs::slot;
use rules::naming;
use table::Marks;
use table::places::word_at;

pub mod entry;
mod following;

// Where a book stands: how many rows it has, the next serial, the next number, and whether no record was carried out since it was handed over.
#[derive(Clone, Copy)]
pub struct At {
    pub count: u16,
    pub serial: u16,
    pub next: u32,
    pub waiting: bool,
}

// The arrays that records go by: a table's own, and beside them each account's collateral, the modes that a look leaves, and what is in excess under each
// account, in tenths.
#[derive(Clone, Copy)]
pub struct Lent {
    pub marks: Marks,
    pub words: [u64; 2560],
    pub kept: [u64; 256],
    pub modes: [bool; 256],
    pub needs: [u64; 256],
    pub numbers: [u16; 256],
    pub excess: [u64; 256],
}

// What a record came to: the refusal or 0, the number given or 0, 1 for one carried out, and the count, the serial and the next number after it.
// No Result: count, serial and next stand beside a refusal too, since 4 to 14 move the serial on.
#[derive(Clone, Copy)]
pub struct Gone {
    pub refusal: u8,
    pub given: u16,
    pub carried: u64,
    pub count: u16,
    pub serial: u16,
    pub next: u32,
}

// What a record asks of the row at a place, by its code.
#[derive(Clone, Copy)]
pub struct Request {
    pub code: u8,
    pub place: u16,
    pub asked: Asked,
}

// The refusal or 0, and the words changed. The mode that counts is the account's in the book before the record (K5).
fn decide(l: &mut Lent, was: &[bool; 256], at: At, q: Request) -> u8
    requires { ReadyFor at was.now l.old q }
    ensures { DecidedFor at was.now l.old q (λ r. gone_with result (is_opening r) at.count at.serial at.next) l.new }
{
    let code = q.code;
    let a = q.place;
    let asked = q.asked;
    match asked {
        Asked::Refused(n) => n,
        Asked::Bare => {
            if code == 11 {
                return retire(&mut l.marks, &l.words, at.count, a);
            }
            open(
                &mut l.marks,
                &mut l.words,
                &mut l.numbers,
                at.count,
                at.next,
                code,
                a,
            )
        }
        Asked::One(y) => {
            let i = a as usize;
            let on = mode_of(l, was, at, i);
            amend_one(&l.marks, &mut l.words, &l.needs, on, i, code, y)
        }
        Asked::Only(kind, x) => {
            let i = a as usize;
            let on = mode_of(l, was, at, i);
            amend_only(&l.marks, &mut l.words, &l.needs, on, i, code, kind, x)
        }
        Asked::Four(k) => {
            let i = a as usize;
            let on = mode_of(l, was, at, i);
            amend_kinds(&l.marks, &mut l.words, &l.needs, on, i, code, k)
        }
    }
}

fn gone_with(n: u8, opening: bool, count: u16, serial: u16, next: u32) -> Gone
    requires { n ≡ 0 → opening ≡ true → (count < 256) × (next < 65536) }
    ensures { result ≡ gone_with n opening count serial next }
{
    let after = std::num::wrapping_add_u16(serial, 1);
    if n != 0 {
        return Gone {
            refusal: n,
            given: 0,
            carried: 0,
            count,
            serial: if 3 < n { after } else { serial },
            next,
        };
    }
    if opening {
        return Gone {
            refusal: 0,
            given: next as u16,
            carried: 1,
            count: count + 1,
            serial: after,
            next: next + 1,
        };
    }
    Gone {
        refusal: 0,
        given: 0,
        carried: 1,
        count,
        serial: after,
        next,
    }
}

// One record decided and carried out on the words, and what it came to, before needs and modes follow.
fn carry(l: &mut Lent, was: &[bool; 256], at: At, q: Request) -> Gone
    requires { ReadyFor at was.now l.old q }
    ensures { DecidedFor at was.now l.old q (λ r. result) l.new }
{
    let n = decide(l, was, at, q);
    let opening = (1 <= q.code) & (q.code <= 3);
    gone_with(n, opening, at.count, at.serial, at.next)
}

// One record, by what it asks, at the arrays of a sound book. `modes` are those that a look leaves: where a record is carried out they are the book's. K3's needs and
// K2's look move at most three places; openings, 4, 5 and 11 move no figure that they go by.
fn step_placed(l: &mut Lent, was: &[bool; 256], at: At, q: Request) -> Gone
    requires { GoingFor at was.now l.old q }
    ensures { SteppedFor at was.now l.old q result l.new }
{
    let still = (q.code <= 5) | (q.code == 11);
    let i = q.place as usize;
    let m0 = word_at(&l.words, 9, slot(q.place));
    let gone = carry(l, was, at, q);
    if !still & (gone.refusal == 0) {
        follow(l, was, at, i, m0);
    }
    gone
}

// One record at the arrays of a sound book: the row that its number names is looked up (K11).
pub fn step(l: &mut Lent, was: &[bool; 256], at: At, r: Record) -> Gone
    requires { Going at was.now l.old }
    ensures { SteppedOn at was.now l.old r result l.new }
{
    let a = place_among(&l.numbers, at.count, r.account);
    let asked = asked_of(&l.marks.live, at.count, at.serial, naming(a, r));
    let q = Request {
        code: r.code,
        place: a,
        asked,
    };
    step_placed(l, was, at, q)
}

// The same for a record in a piece, of which no more is read than its code names.
pub fn step_read(
    l: &mut Lent,
    was: &[bool; 256],
    at: At,
    piece: &[u8],
    place: usize,
    h: Head,
) -> Gone
    requires { Going at was.now l.old × Heads piece.now place h }
    ensures { SteppedOn at was.now l.old (record_at piece.now place h) result l.new }
{
    let a = place_among(&l.numbers, at.count, h.account);
    let asked = asked_at(&l.marks.live, at.count, at.serial, a, piece, place, h);
    let q = Request {
        code: h.code,
        place: a,
        asked,
    };
    step_placed(l, was, at, q)
}

// Where the book stands after a record.
pub fn on(at: At, gone: Gone) -> At
    ensures { result ≡ at_after at gone }
{
    At {
        count: gone.count,
        serial: gone.serial,
        next: gone.next,
        waiting: if gone.carried == 0 { at.waiting } else { false },
    }
}

// The book's modes: those that it was handed over with while no record was carried out, and from then on those that a look left.
pub(crate) fn modes_of(l: &Lent, was: &[bool; 256], at: At) -> [bool; 256]
    ensures { result ≡ modes_in at.waiting was.now l.now.modes }
{
    if at.waiting { *was } else { l.modes }
}
