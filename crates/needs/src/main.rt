// The book after the day file on standard input, over a fresh book or the one in the file FROM: the closing line, then a line for each account with its need.
#![tactic(auto)]

use feed::{Closing, Table};

// Of a book that isn't sound nothing is told.
fn list(rt: &HostRuntime, word: Closing, table: Table) {
    match word {
        Closing::Unsound => {}
        _ => {
            report::needs(rt, b"needs", table);
        }
    }
}

// One shape with the main of `standings`: each names its own words and calls, and no crate is for what two mains share.
fn main(rt: HostRuntime) {
    let help = streams::standard::help(
        &rt,
        b"needs: carries out the day file on standard input over a fresh book, or over the one in the file FROM (- for a fresh one); the closing line, then what each account needs, a line for each account\nusage: needs [FROM] < DAYFILE\n",
    );
    if help.is_some() {
        return;
    }
    if streams::standard::too_many_words(&rt, b"needs", 1) {
        return;
    }
    let from = feed::books::from_word(&rt, b"needs", 1);
    if from.failed {
        return;
    }
    let day = feed::whole_day(&rt, b"needs", false, from.table);
    if day.failed {
        return;
    }
    let closed = report::closing(&rt, b"needs", day.closing, day.read, day.done);
    if closed.failed {
        return;
    }
    list(&rt, day.closing, day.table);
}
