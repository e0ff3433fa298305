// A day file from text in the file TEXT, a record a line. A line that says nothing is told on standard error, and nothing is written then: TEXT is judged whole before it is turned.
#![tactic(auto)]

use streams::standard::tell;
use streams::words;

fn too_few_words(rt: &HostRuntime) -> bool {
    let few = !words::is_there(words::count(rt), 1);
    if few {
        tell(
            rt,
            b"write: it takes a word, TEXT, and then FROM where it is wanted\n",
        );
    }
    few
}

fn tell_fault(rt: &HostRuntime, fault: u8) {
    match fault {
        4 => tell(rt, b"no such word\n"),
        5 => tell(rt, b"kinds missing, or not of this word\n"),
        6 => tell(rt, b"an amount missing or out of range\n"),
        30 => tell(
            rt,
            b"something more in the line (kinds stand in the order cash, deposits, guarantees, securities)\n",
        ),
        31 => tell(rt, b"no serial after serial\n"),
        32 => tell(rt, b"no bytes after raw\n"),
        33 => tell(rt, b"no account\n"),
        _ => tell(rt, b"too long\n"),
    }
}

// A number, a mark and a space.
fn tell_number(rt: &HostRuntime, n: u64, mark: u8) {
    let mut room = [0u8; 21];
    let k = text::put_number(&mut room, 0, n, mark);
    tell(rt, &room[..k]);
    tell(rt, b" ");
}

// As `write: line 3: 33, no account`.
fn tell_line(rt: &HostRuntime, line: u64, fault: u8) {
    tell(rt, b"write: line ");
    tell_number(rt, line, b':');
    tell_number(rt, u64::from(fault), b',');
    tell_fault(rt, fault);
}

fn run(rt: &HostRuntime, running: u16) {
    let judged = wording::judged(rt, b"write", 1, running);
    if judged.failed {
        return;
    }
    if judged.fault != 0 {
        tell_line(rt, judged.line, judged.fault);
        return;
    }
    wording::as_bytes(rt, b"write", 1, running);
}

fn main(rt: HostRuntime) {
    let help = streams::standard::help(
        &rt,
        b"write: writes the day file that the text in the file TEXT says, a record a line; lines without a serial get the running one, which begins with the next serial of the book in the file FROM, or with 0; a line that says nothing is told on standard error, and nothing is written\nusage: write TEXT [FROM] > DAYFILE\n",
    );
    if help.is_some() {
        return;
    }
    if streams::standard::too_many_words(&rt, b"write", 2) {
        return;
    }
    if too_few_words(&rt) {
        return;
    }
    let from = feed::books::from_word(&rt, b"write", 2);
    if from.failed {
        return;
    }
    run(&rt, from.table.serial);
}
