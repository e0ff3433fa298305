// A day file from standard input in words, a line a record. Serials are shown where they aren't the running one, which begins with the next serial of the book in the file FROM.
#![tactic(auto)]

fn main(rt: HostRuntime) {
    let help = streams::standard::help(
        &rt,
        b"read: writes the day file on standard input in words, a line a record, raw where a record can't be said in words; serials are shown where they aren't the running one, which begins with the next serial of the book in the file FROM, or with 0\nusage: read [FROM] < DAYFILE > TEXT\n",
    );
    if help.is_some() {
        return;
    }
    if streams::standard::too_many_words(&rt, b"read", 1) {
        return;
    }
    let from = feed::books::from_word(&rt, b"read", 1);
    if from.failed {
        return;
    }
    wording::in_words(&rt, b"read", from.table.serial);
}
