// Takes the book in the file FROM over to the new rule (K7): the refusal or 0 on standard output. The book so taken over goes into the file TO before that; where it is refused, nothing
// is written there.
#![tactic(auto)]

use feed::Table;
use streams::standard::write_output;
use streams::words;

// Both words are wanted.
fn too_few_words(rt: &HostRuntime) -> bool {
    let few = !words::is_there(words::count(rt), 2);
    if few {
        streams::standard::tell(rt, b"take_over: it takes two words, FROM and TO\n");
    }
    few
}

fn tell(rt: &HostRuntime, refusal: u8) {
    let mut line = [0u8; 21];
    let n = text::put_number(&mut line, 0, u64::from(refusal), b'\n');
    write_output(rt, b"take_over", &line[..n]);
}

fn take_over(rt: &HostRuntime, before: Table) {
    let taken = book::take_over(before);
    if taken.refusal == 0 {
        let put = feed::books::to_word(rt, b"take_over", 2, taken.table);
        if put.failed {
            return;
        }
    }
    tell(rt, taken.refusal);
}

// One shape with the main of `archive`: each names its own words and calls, and no crate is for what two mains share.
fn main(rt: HostRuntime) {
    let help = streams::standard::help(
        &rt,
        b"take_over: takes the book in the file FROM over to the rule by which government securities count less a tenth, into the file TO; prints 0, or 1 where the book isn't sound by the old rule\nusage: take_over FROM TO\n",
    );
    if help.is_some() {
        return;
    }
    if streams::standard::too_many_words(&rt, b"take_over", 2) {
        return;
    }
    if too_few_words(&rt) {
        return;
    }
    let from = feed::books::from_word(&rt, b"take_over", 1);
    if from.failed {
        return;
    }
    take_over(&rt, from.table);
}
