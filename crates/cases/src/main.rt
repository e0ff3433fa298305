// What no call from outside reaches, each subject under its heading. Amounts are in paise.
#![tactic(auto)]

mod books;
mod ended;
mod evening;
mod judged;
mod made;
mod places;
mod rooms;
mod shown;
mod turning;
mod turns;
mod written;

fn main(rt: HostRuntime) {
    shown::say(&rt, b"-- a book's written form\n");
    written::lines(&rt);
    shown::say(&rt, b"-- evening sums\n");
    evening::lines(&rt);
    shown::say(&rt, b"-- records and places of a day file\n");
    judged::lines(&rt);
    places::lines(&rt);
    shown::say(&rt, b"-- a reader\n");
    turns::lines(&rt);
    shown::say(&rt, b"-- a day with its numbers\n");
    rooms::lines(&rt);
}
