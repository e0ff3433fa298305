// What a record asks of the row that it names: its first six bytes have its code, and the code tells which amounts are read.
ghost use Rattle.std.specs.Prelude.{true, ◌≡◌, ◌+◌, ◌*◌, ◌≤◌, ◌<◌, length, drop};
ghost use Rattle.numbers.specs.Bytes.{number};
ghost use Rattle.dayfile.specs.Taking.{mark_of};
ghost use Rattle.codes.specs.Own.{alive_in};
ghost use Rattle.codes.specs.Asking.{names_kinds, names_one, names_margin, names_none, good_named, good_kinds, good_one, names_only, kind_of, meant, asked_of, record_at, Heads, HeadedAt};

use crate::one_kind::Kind;
use crate::{alive, early};
use dayfile::{Record, size};
use numbers::{number2, number8, number8_if};
use rows::{CEILING, Kinds};

// A record's first six bytes.
#[derive(Clone, Copy)]
pub struct Head {
    pub code: u8,
    pub named: u8,
    pub serial: u16,
    pub account: u16,
}

// What stands at a place: no bytes, too few for a record, or a record's head with the place after the record.
#[derive(Clone, Copy)]
pub enum Headed {
    End,
    Cut,
    Whole(Head, usize),
}

// What a record asks: nothing, since a line before 8 refuses it, or by its code no amount, one, or one of each kind; where one kind alone is named, that one.
#[derive(Clone, Copy)]
pub enum Asked {
    Refused(u8),
    Bare,
    One(u64),
    Only(Kind, u64),
    Four(Kinds),
}

// What is left is compared, so that no sum of a place and a length wraps.
pub fn head_at(piece: &[u8], place: usize) -> Headed
    ensures { HeadedAt piece.now place result }
{
    if piece.len() <= place {
        return Headed::End;
    }
    let left = piece.len() - place;
    if left < 2 {
        return Headed::Cut;
    }
    let code = piece[place];
    let named = piece[place + 1];
    let n = size(named);
    if left < n {
        return Headed::Cut;
    }
    let h = Head {
        code,
        named,
        serial: number2(piece, place + 2),
        account: number2(piece, place + 4),
    };
    Headed::Whole(h, place + n)
}

// Codes 4 to 7 name kinds.
fn names_kinds(code: u8) -> bool
    ensures { result ≡ names_kinds code }
{
    (4 <= code) & (code <= 7)
}

// Codes 8, 9, 10, 12 and 13 name one amount, 10 and 13 a margin.
fn names_one(code: u8) -> bool
    ensures { result ≡ names_one code }
{
    (8 <= code) & (code <= 13) & (code != 11)
}

fn names_margin(code: u8) -> bool
    ensures { result ≡ names_margin code }
{
    (code == 10) | (code == 13)
}

// Codes 1, 2, 3 and 11 name none.
fn names_none(code: u8) -> bool
    ensures { result ≡ names_none code }
{
    ((1 <= code) & (code <= 3)) | (code == 11)
}

// The number of eight bytes where the bit is 1, or 0, where eight bytes follow in any case: no branch is taken by the bit.
fn amount_near(piece: &[u8], place: usize, bit: u8) -> u64
    requires { (place + 8 ≤ length piece.now) × (bit < 2) }
    ensures { result ≡ number (8 * bit) (drop place piece.now) }
{
    bit as u64 * number8(piece, place)
}

// The four amounts of a record, each 0 where it isn't named.
fn kinds_at(piece: &[u8], place: usize, h: Head) -> Kinds
    requires { Heads piece.now place h }
    ensures { result ≡ (record_at piece.now place h).kinds }
{
    let named = h.named;
    let p0 = place + 6;
    let p1 = p0 + 8 * ((named / 1 % 2) as usize);
    let p2 = p1 + 8 * ((named / 2 % 2) as usize);
    let p3 = p2 + 8 * ((named / 4 % 2) as usize);
    if 38 <= piece.len() - place {
        return Kinds {
            cash: amount_near(piece, p0, named / 1 % 2),
            deposits: amount_near(piece, p1, named / 2 % 2),
            guarantees: amount_near(piece, p2, named / 4 % 2),
            securities: amount_near(piece, p3, named / 8 % 2),
        };
    }
    Kinds {
        cash: number8_if(piece, p0, named / 1 % 2),
        deposits: number8_if(piece, p1, named / 2 % 2),
        guarantees: number8_if(piece, p2, named / 4 % 2),
        securities: number8_if(piece, p3, named / 8 % 2),
    }
}

// An amount that was read, which is 0 where its bit is: from 1 to the ceiling, or 0.
fn good_named(bit: u8, x: u64) -> bool
    ensures { result ≡ good_named bit x }
{
    (bit as u64 <= x) & (x <= CEILING)
}

fn good_kinds(named: u8, k: Kinds) -> bool
    ensures { result ≡ good_kinds named k }
{
    good_named(named / 1 % 2, k.cash)
        & good_named(named / 2 % 2, k.deposits)
        & good_named(named / 4 % 2, k.guarantees)
        & good_named(named / 8 % 2, k.securities)
}

// The second mark byte, whose bits are kinds, names one alone.
fn names_only(named: u8) -> bool
    ensures { result ≡ names_only named }
{
    (named == 1) | (named == 2) | (named == 4) | (named == 8)
}

fn kind_of(named: u8) -> Kind
    ensures { result ≡ kind_of named }
{
    match named {
        1 => Kind::Cash,
        2 => Kind::Deposits,
        4 => Kind::Guarantees,
        _ => Kind::Securities,
    }
}

// One kind: 6 or 7, or its amount.
fn asked_only(live: &[bool; 256], count: u16, i: u16, piece: &[u8], place: usize, h: Head) -> Asked
    requires { (count ≤ 256) × (names_kinds h.code ≡ true) × (names_only h.named ≡ true) × Heads piece.now place h }
    ensures { meant result ≡ asked_of (alive_in live.now count i) h.serial (record_at piece.now place h) }
{
    let x = number8(piece, place + 6);
    if !good_named(1, x) {
        return Asked::Refused(6);
    }
    if alive(live, count, i) {
        Asked::Only(kind_of(h.named), x)
    } else {
        Asked::Refused(7)
    }
}

// Kinds: 5, 6 or 7, or the amounts.
fn asked_kinds(live: &[bool; 256], count: u16, i: u16, piece: &[u8], place: usize, h: Head) -> Asked
    requires { (count ≤ 256) × (names_kinds h.code ≡ true) × Heads piece.now place h }
    ensures { meant result ≡ asked_of (alive_in live.now count i) h.serial (record_at piece.now place h) }
{
    if !((1 <= h.named) & (h.named <= 15)) {
        return Asked::Refused(5);
    }
    if names_only(h.named) {
        return asked_only(live, count, i, piece, place, h);
    }
    let k = kinds_at(piece, place, h);
    if !good_kinds(h.named, k) {
        return Asked::Refused(6);
    }
    if !alive(live, count, i) {
        return Asked::Refused(7);
    }
    Asked::Four(k)
}

// The second mark byte of a code that names one amount.
fn mark_of(code: u8) -> u8
    requires { names_one code ≡ true }
    ensures { result ≡ mark_of code }
{
    if names_margin(code) { 32 } else { 16 }
}

// What is set may be 0: a margin, and with code 12 what is pledged (K8).
fn good_one(code: u8, x: u64) -> bool
    ensures { result ≡ good_one code x }
{
    let least: u64 = if code <= 9 { 1 } else { 0 };
    (least <= x) & (x <= CEILING)
}

// One amount, which stands behind the head: 5, 6 or 7, or the amount.
fn asked_one(live: &[bool; 256], count: u16, i: u16, piece: &[u8], place: usize, h: Head) -> Asked
    requires { (count ≤ 256) × (names_one h.code ≡ true) × Heads piece.now place h }
    ensures { result ≡ asked_of (alive_in live.now count i) h.serial (record_at piece.now place h) }
{
    if h.named != mark_of(h.code) {
        return Asked::Refused(5);
    }
    let y = number8(piece, place + 6);
    if !good_one(h.code, y) {
        return Asked::Refused(6);
    }
    if !alive(live, count, i) {
        return Asked::Refused(7);
    }
    Asked::One(y)
}

// No amount: 5 or 7, or nothing more.
fn asked_none(live: &[bool; 256], count: u16, i: u16, piece: &[u8], place: usize, h: Head) -> Asked
    requires { (count ≤ 256) × (names_none h.code ≡ true) × Heads piece.now place h }
    ensures { result ≡ asked_of (alive_in live.now count i) h.serial (record_at piece.now place h) }
{
    if h.named != 0 {
        return Asked::Refused(5);
    }
    if alive(live, count, i) {
        Asked::Bare
    } else {
        Asked::Refused(7)
    }
}

// The record at a place of a piece, whose account's row is at place i.
pub fn asked_at(
    live: &[bool; 256],
    count: u16,
    serial: u16,
    i: u16,
    piece: &[u8],
    place: usize,
    h: Head,
) -> Asked
    requires { (count ≤ 256) × Heads piece.now place h }
    ensures { meant result ≡ asked_of (alive_in live.now count i) serial (record_at piece.now place h) }
{
    if h.serial != serial {
        return Asked::Refused(3);
    }
    if names_kinds(h.code) {
        return asked_kinds(live, count, i, piece, place, h);
    }
    if names_one(h.code) {
        return asked_one(live, count, i, piece, place, h);
    }
    if names_none(h.code) {
        return asked_none(live, count, i, piece, place, h);
    }
    Asked::Refused(4)
}

// A record handed over as a value.
pub fn asked_of(live: &[bool; 256], count: u16, serial: u16, r: Record) -> Asked
    requires { count ≤ 256 }
    ensures { result ≡ asked_of (alive_in live.now count r.account) serial r }
{
    let n = early(live, count, serial, r);
    if n != 0 {
        return Asked::Refused(n);
    }
    if names_kinds(r.code) {
        let k = r.kinds;
        return Asked::Four(k);
    }
    if names_one(r.code) {
        return Asked::One(if names_margin(r.code) {
            r.margin
        } else {
            r.pledged
        });
    }
    Asked::Bare
}
