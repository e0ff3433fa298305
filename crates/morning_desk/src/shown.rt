// What the calls answer, in words and numbers on standard output.
use book::Figures;
use dayfile::Wrote;
use desk::{Answer, Outcome};
use streams::standard::show;

pub fn say(rt: &HostRuntime, text: &[u8]) {
    show(rt, text);
}

// A word or more, then a number.
pub fn told(rt: &HostRuntime, text: &[u8], n: u64) {
    say(rt, text);
    say(rt, b" ");
    let _ = rt.print(n);
}

fn outcome(rt: &HostRuntime, o: Outcome) {
    match o {
        Outcome::CarriedOut => say(rt, b"carried out"),
        Outcome::Opened(n) => told(rt, b"opened as", u64::from(n)),
        Outcome::Refused(n) => told(rt, b"refused", u64::from(n)),
        Outcome::End => say(rt, b"the end"),
    }
}

// The record's serial, code and account, and what became of it.
pub fn answer(rt: &HostRuntime, a: Answer) {
    told(rt, b": serial", u64::from(a.serial));
    told(rt, b", code", u64::from(a.code));
    told(rt, b", account", u64::from(a.account));
    say(rt, b": ");
    outcome(rt, a.outcome);
}

pub fn wrote(rt: &HostRuntime, w: Wrote) {
    match w {
        Wrote::Written(n) => told(rt, b"written: bytes", n as u64),
        Wrote::Refused(n) => told(rt, b"not written: refused", u64::from(n)),
    }
    say(rt, b"\n");
}

pub fn figures(rt: &HostRuntime, account: u64, f: Figures) {
    told(rt, b"standing of", account);
    told(rt, b": refusal", u64::from(f.refusal));
    told(rt, b", collateral", f.collateral);
    told(rt, b", need", f.need);
    told(rt, b", blocked", f.blocked);
    told(rt, b", deemed", f.deemed);
    told(rt, b", free", f.free);
    if f.mode {
        say(rt, b", mode on");
    } else {
        say(rt, b", mode off");
    }
    told(rt, b", shortfall", f.shortfall);
    say(rt, b"\n");
}

// An account's four amounts of a close-out.
pub fn paid(rt: &HostRuntime, account: u64, own: u64, tm: u64, cm: u64, uncovered: u64) {
    told(rt, b"loss of", account);
    told(rt, b": own", own);
    told(rt, b", the TM's", tm);
    told(rt, b", the CM's", cm);
    told(rt, b", uncovered", uncovered);
    say(rt, b"\n");
}
