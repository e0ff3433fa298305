// Moves the retired accounts out of the book in the file FROM (K11): a line for each goes into the text file ARCHIVE, then the book without them into the file TO; then the refusal and how
// many moved are printed. Where the book isn't sound, nothing is written.
#![tactic(auto)]

use feed::Table;
use streams::standard::write_output;
use streams::words;

mod file;

// Three numbers for each of 256 rows.
const ENTRIES: usize = 768;

// All three words are wanted.
fn too_few_words(rt: &HostRuntime) -> bool {
    let few = !words::is_there(words::count(rt), 3);
    if few {
        streams::standard::tell(rt, b"archive: it takes three words, FROM, TO and ARCHIVE\n");
    }
    few
}

fn tell(rt: &HostRuntime, refusal: u8, moved: u16) {
    let mut line = [0u8; 42];
    let list = [u64::from(refusal), u64::from(moved)];
    let n = text::put_spaced(&mut line, 0, &list);
    write_output(rt, b"archive", &line[..n]);
}

// ARCHIVE is written before TO: a run that is cut off between the two leaves accounts in both, and none in neither.
fn archive(rt: &HostRuntime, t: Table) {
    let mut entries = [0u16; ENTRIES];
    let archived = archival::archive(t, &mut entries);
    if archived.refusal == 0 {
        let n = 3 * usize::from(archived.moved);
        if file::fails(rt, &entries[..n]) {
            return;
        }
        let put = feed::books::to_word(rt, b"archive", 2, archived.table);
        if put.failed {
            return;
        }
    }
    tell(rt, archived.refusal, archived.moved);
}

// One shape with the main of `take_over`: each names its own words and calls, and no crate is for what two mains share.
fn main(rt: HostRuntime) {
    let help = streams::standard::help(
        &rt,
        b"archive: moves the retired accounts out of the book in the file FROM, a line for each into the text file ARCHIVE, the book without them into the file TO; prints 0 and how many moved, or 1 0 where the book isn't sound\nusage: archive FROM TO ARCHIVE\n",
    );
    if help.is_some() {
        return;
    }
    if streams::standard::too_many_words(&rt, b"archive", 3) {
        return;
    }
    if too_few_words(&rt) {
        return;
    }
    let from = feed::books::from_word(&rt, b"archive", 1);
    if from.failed {
        return;
    }
    archive(&rt, from.table);
}
