// Evening sums: of Annexure 4's book, of one with another number in each amount, of one with a shortfall, and of books that are not sound.
use crate::{books, shown};
use book::{Amount, Table};
use rows::{Kinds, Row, words};
use table::{turn, turn_back};

fn total(rt: &HostRuntime, t: Table, amount: Amount) {
    let s = book::amount_sum(t, amount);
    shown::number(rt, s.total);
}

// An account of the old order with a number of its own in each amount; what is received goes by n.
fn each(sort: u8, n: u8) -> Row {
    let k = u64::from(n);
    let received = Kinds {
        cash: k * 100,
        deposits: k * 200,
        guarantees: k * 300,
        securities: k * 400,
    };
    let allocated = Kinds {
        cash: 1,
        deposits: 2,
        guarantees: 3,
        securities: 4,
    };
    let r = words::with_received(words::opened_row(sort, 0), received);
    let r = words::with_allocated(r, allocated);
    words::with_margin(words::with_pledged(r, 50), 6)
}

// The CM and a CP whose collateral, 60, meets its margin: the CM needs its own margin, 6. The book of the old order, turned over.
fn two() -> Table {
    let mut b = turn_back(book::fresh());
    b.rows[0] = each(0, 1);
    b.rows[1] = each(3, 10);
    b.count = 2;
    b.numbers[1] = 1;
    b.next = 2;
    b.needs[0] = 6;
    turn(b)
}

fn ten(rt: &HostRuntime, t: Table) {
    shown::say(rt, b"evening sums of the ten amounts:");
    total(rt, t, Amount::ReceivedCash);
    total(rt, t, Amount::ReceivedDeposits);
    total(rt, t, Amount::ReceivedGuarantees);
    total(rt, t, Amount::ReceivedSecurities);
    total(rt, t, Amount::AllocatedCash);
    total(rt, t, Amount::AllocatedDeposits);
    total(rt, t, Amount::AllocatedGuarantees);
    total(rt, t, Amount::AllocatedSecurities);
    total(rt, t, Amount::Pledged);
    total(rt, t, Amount::Margin);
    shown::end_line(rt);
}

fn margins(rt: &HostRuntime, t: Table) {
    let s = book::amount_sum(t, Amount::Margin);
    shown::told(rt, b": refusal ", u64::from(s.refusal));
    shown::told(rt, b" total ", s.total);
    shown::end_line(rt);
}

// The book with the need at place i kept as this.
fn kept(rt: &HostRuntime, t: Table, i: u8, need: u64) {
    shown::told(rt, b"margins, need ", need);
    shown::told(rt, b" kept at place ", u64::from(i));
    margins(rt, books::keeping(t, i, need));
}

// "A sound book now includes that each kept need equals the need worked out afresh, and a wrong one is refusal 1."
fn wrong(rt: &HostRuntime, t: Table) {
    shown::say(rt, b"-- P4\n");
    kept(rt, t, 1, 90_000);
    kept(rt, t, 1, 90_001);
    kept(rt, t, 1, 89_999);
    kept(rt, t, 0, 40_001);
    kept(rt, t, 0, 39_999);
    kept(rt, t, 0, u64::MAX);
    kept(rt, t, 2, 60_000);
    kept(rt, t, 4, 1);
    kept(rt, t, 255, 1);
}

// Document 02, K8: "A sound book no longer has to be covered".
fn kept_short(rt: &HostRuntime, t: Table) {
    shown::say(rt, b"-- with a shortfall\n");
    kept(rt, t, 0, 100_001);
    kept(rt, t, 0, 100_000);
}

// A CP's need isn't kept, at place 3, nor a retired TM's, at place 4.
fn kept_mixed(rt: &HostRuntime, t: Table) {
    shown::say(rt, b"-- with a CP at place 3 and a retired TM at 4\n");
    kept(rt, t, 3, 0);
    kept(rt, t, 3, 30);
    kept(rt, t, 4, 1);
}

pub fn lines(rt: &HostRuntime) {
    ten(rt, books::p4());
    ten(rt, two());
    wrong(rt, books::p4());
    kept_short(rt, books::short());
    kept_mixed(rt, books::mixed());
}
