// The day file on standard input over a fresh book, or over the one in the file FROM: `day`'s lines, and behind each refused record with one amount how much would have passed. No book is kept.
#![tactic(auto)]

fn main(rt: HostRuntime) {
    let help = streams::standard::help(
        &rt,
        b"explain: carries out the day file on standard input over a fresh book, or over the one in the file FROM (- for a fresh one), and keeps no book; the lines of day, and behind the line of each refused record with one amount the refusal or 0 and the largest amount that would have passed\nusage: explain [FROM] < DAYFILE\n",
    );
    if help.is_some() {
        return;
    }
    if streams::standard::too_many_words(&rt, b"explain", 1) {
        return;
    }
    let from = feed::books::from_word(&rt, b"explain", 1);
    if from.failed {
        return;
    }
    let day = feed::explained_day(&rt, b"explain", from.table);
    if day.failed {
        return;
    }
    report::closing(&rt, b"explain", day.closing, day.read, day.done);
}
