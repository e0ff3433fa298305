// What the program `calls` doesn't reach of a book's written form: rooms of other lengths, bytes that are no book, and version 1.
ghost use Rattle.std.specs.Prelude.{◌≤◌, ◌<◌, length};

use crate::shown::{say, told};
use bookfile::{Held, SIZE, Table};

// A book that isn't sound, with words in its last place.
fn some_book() -> Table {
    let mut t = book::fresh();
    t.count = 65_535;
    t.serial = 258;
    t.marks.sort[255] = 200;
    t.marks.live[255] = true;
    t.modes[255] = true;
    t.needs[255] = 72_623_859_790_382_856;
    t.amounts[2559] = 18_446_744_073_709_551_615;
    t.next = 16_909_060;
    t.numbers[255] = 65_534;
    t
}

// Into the first n bytes of a room of 255s: the answer, and the room's first byte, the written form's last and the one behind it.
fn room_line(rt: &HostRuntime, t: Table, n: usize)
    requires { n ≤ 24_333 }
{
    let mut room = [255u8; 24_333];
    let answer = bookfile::write(t, &mut room[..n]);
    told(rt, b"into ", n as u64);
    told(rt, b": ", u64::from(answer));
    told(rt, b"; bytes ", u64::from(room[0]));
    told(rt, b" ", u64::from(room[24_331]));
    told(rt, b" ", u64::from(room[24_332]));
    say(rt, b"\n");
}

fn held_line(rt: &HostRuntime, held: Held) {
    let t = held.table;
    if held.is_book {
        say(rt, b"a book");
    } else {
        say(rt, b"none");
    }
    told(rt, b"; count ", u64::from(t.count));
    told(rt, b", serial ", u64::from(t.serial));
    told(rt, b", next ", u64::from(t.next));
    told(rt, b", at 254 number ", u64::from(t.numbers[254]));
    told(rt, b", at 255 number ", u64::from(t.numbers[255]));
    told(rt, b", sort ", u64::from(t.marks.sort[255]));
    told(rt, b", need ", t.needs[255]);
    told(rt, b", margin ", t.amounts[2559]);
    say(rt, b"\n");
}

fn front_line(rt: &HostRuntime, file: &[u8], n: usize)
    requires { n ≤ length file.now }
{
    told(rt, b"from ", n as u64);
    say(rt, b": ");
    held_line(rt, bookfile::read(&file[..n]));
}

// With one byte put anew, for this line alone.
fn byte_line(rt: &HostRuntime, file: &mut [u8], place: usize, byte: u8)
    requires { place < length file.old }
{
    let was = file[place];
    file[place] = byte;
    told(rt, b"byte ", place as u64);
    told(rt, b" as ", u64::from(byte));
    say(rt, b": ");
    held_line(rt, bookfile::read(&file[..]));
    file[place] = was;
}

// Where byte n of version 1 stands in version 2, which has a next number of 4 bytes, and a number of 2 in front of each place.
fn place_in_two(n: usize) -> usize
    requires { n < 23_816 }
    ensures { result < 24_332 }
{
    if n < 8 {
        n
    } else {
        14 + 95 * ((n - 8) / 93) + (n - 8) % 93
    }
}

// The same book in version 1.
fn older(file: [u8; 24_332]) -> [u8; 23_816] {
    let mut old = [0u8; 23_816];
    for (n, byte) in old.iter_mut().enumerate() {
        *byte = file[place_in_two(n)];
    }
    old[3] = 1;
    old
}

fn rooms(rt: &HostRuntime, t: Table) {
    room_line(rt, t, 0);
    room_line(rt, t, 23_816);
    room_line(rt, t, 24_331);
    room_line(rt, t, 24_332);
    room_line(rt, t, 24_333);
}

fn version_two(rt: &HostRuntime, file: [u8; 24_332]) {
    let mut bytes = file;
    front_line(rt, &bytes, 0);
    front_line(rt, &bytes, 24_331);
    front_line(rt, &bytes, SIZE);
    byte_line(rt, &mut bytes, 0, 77);
    byte_line(rt, &mut bytes, 3, 1);
    byte_line(rt, &mut bytes, 15, 2);
    byte_line(rt, &mut bytes, 24_323, 255);
    byte_line(rt, &mut bytes, 24_239, 0);
}

// Its count is 65,535, or with byte 4 as 0 it is 255.
fn version_one(rt: &HostRuntime, old: [u8; 23_816]) {
    let mut bytes = old;
    front_line(rt, &bytes, 23_815);
    front_line(rt, &bytes, 23_816);
    byte_line(rt, &mut bytes, 3, 2);
    byte_line(rt, &mut bytes, 4, 0);
    byte_line(rt, &mut bytes, 9, 2);
    byte_line(rt, &mut bytes, 23_807, 255);
}

pub fn lines(rt: &HostRuntime) {
    let t = some_book();
    rooms(rt, t);
    let mut file = [0u8; SIZE];
    bookfile::write(t, &mut file);
    version_two(rt, file);
    version_one(rt, older(file));
}
