// The program of document 01: a day file from standard input over a fresh book, or over the one in the file FROM: a line per record and the closing line. The book after it
// goes into the file TO.
#![tactic(auto)]

use feed::{Closing, Table};

// Where TO is named. A book that isn't sound is not written: nothing was carried out.
fn put_to(rt: &HostRuntime, word: Closing, table: Table) -> bool {
    match word {
        Closing::Unsound => true,
        _ => {
            let put = feed::books::to_word(rt, b"day", 2, table);
            !put.failed
        }
    }
}

fn main(rt: HostRuntime) {
    let help = streams::standard::help(
        &rt,
        b"day: carries out the day file on standard input over a fresh book, or over the one in the file FROM (- for a fresh one); a line for each record, then the closing word, records read and records carried out; the book after it goes into the file TO\nusage: day [FROM [TO]] < DAYFILE\n",
    );
    if help.is_some() {
        return;
    }
    if streams::standard::too_many_words(&rt, b"day", 2) {
        return;
    }
    let from = feed::books::from_word(&rt, b"day", 1);
    if from.failed {
        return;
    }
    let day = feed::whole_day(&rt, b"day", true, from.table);
    if day.failed {
        return;
    }
    if !put_to(&rt, day.closing, day.table) {
        return;
    }
    report::closing(&rt, b"day", day.closing, day.read, day.done);
}
