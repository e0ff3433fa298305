// Words and numbers on standard output.
use streams::standard::show;

pub fn say(rt: &HostRuntime, text: &[u8]) {
    show(rt, text);
}

// A text, and a number right behind it.
pub fn told(rt: &HostRuntime, text: &[u8], n: u64) {
    say(rt, text);
    let _ = rt.print(n);
}

pub fn number(rt: &HostRuntime, n: u64) {
    told(rt, b" ", n);
}

// A word with its number.
pub fn pair(rt: &HostRuntime, text: &[u8], n: u64) {
    say(rt, text);
    number(rt, n);
}

pub fn end_line(rt: &HostRuntime) {
    say(rt, b"\n");
}
