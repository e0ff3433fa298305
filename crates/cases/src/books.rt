// Books to ask about, each a table with some words put anew.
use book::Table;

// The table with the live account i, the last one, at the place of its number: all of its collateral is allocated cash.
fn with(t: Table, i: u8, sort: u8, tm: u16, amount: u64, margin: u64) -> Table {
    let at = usize::from(i);
    let mut w = t;
    w.count = u16::from(i) + 1;
    w.marks.sort[at] = sort;
    w.marks.live[at] = true;
    w.marks.tm[at] = tm;
    w.numbers[at] = u16::from(i);
    w.next = u32::from(i) + 1;
    w.amounts[at] = amount;
    w.amounts[1024 + at] = amount;
    w.amounts[2304 + at] = margin;
    w
}

fn retired(t: Table, i: u8) -> Table {
    let at = usize::from(i);
    let mut w = t;
    w.marks.live[at] = false;
    w
}

// The table with this need kept at place i.
pub fn keeping(t: Table, i: u8, need: u64) -> Table {
    let at = usize::from(i);
    let mut w = t;
    w.needs[at] = need;
    w
}

// Annexure 4: CM 1000, TM-1 500, its clients A 300 with margin 600 and B 300, in rupees; B's margin is b. The needs kept are TM-1's, tm, and
// the CM's, all: each is worked out by hand, and nothing here adds one up.
fn annexure(b: u64, tm: u64, all: u64) -> Table {
    let t = with(book::fresh(), 0, 0, 0, 100_000, 0);
    let t = with(t, 1, 1, 0, 50_000, 0);
    let t = with(t, 2, 2, 1, 30_000, 60_000);
    let t = with(t, 3, 2, 1, 30_000, b);
    keeping(keeping(t, 1, tm), 0, all)
}

// P4: B's margin 900; TM-1 needs 300 and 600, the CM 400.
pub fn p4() -> Table {
    annexure(90_000, 90_000, 40_000)
}

// B's margin 1500.01: the CM needs a paisa more than its collateral, a shortfall (K8).
pub fn short() -> Table {
    annexure(150_001, 150_001, 100_001)
}

// CM 100 with margin 10, a TM 50 with 20, its client 10 with 25, a CP 20 with 30, a retired TM. The client is deemed 15 and the CP 10: the
// TM needs 35, which its 50 meets, and the CM 20.
pub fn mixed() -> Table {
    let t = with(book::fresh(), 0, 0, 0, 100, 10);
    let t = with(t, 1, 1, 0, 50, 20);
    let t = with(t, 2, 2, 1, 10, 25);
    let t = with(t, 3, 3, 0, 20, 30);
    let t = retired(with(t, 4, 1, 0, 0, 0), 4);
    keeping(keeping(t, 1, 35), 0, 20)
}
