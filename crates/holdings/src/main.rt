// The book after the day file on standard input, over a fresh book or the one in the file FROM: the closing line, then the next serial and number, and a line for
// each row held with all that the book has of it and its use. Of a book that isn't sound there is no text but the closing line.
#![tactic(auto)]

fn main(rt: HostRuntime) {
    let help = streams::standard::help(
        &rt,
        b"holdings: carries out the day file on standard input over a fresh book, or over the one in the file FROM (- for a fresh one); the closing line, then the next serial and number, and what the book has of each account, a line for each account\nusage: holdings [FROM] < DAYFILE\n",
    );
    if help.is_some() {
        return;
    }
    if streams::standard::too_many_words(&rt, b"holdings", 1) {
        return;
    }
    let from = feed::books::from_word(&rt, b"holdings", 1);
    if from.failed {
        return;
    }
    let day = feed::whole_day(&rt, b"holdings", false, from.table);
    if day.failed {
        return;
    }
    let closed = report::closing(&rt, b"holdings", day.closing, day.read, day.done);
    if closed.failed {
        return;
    }
    report::holdings(&rt, b"holdings", day.table);
}
