// A book's written form, put into a lent room.
// Refusals stay the documents' numbers, 0 for none: `wrote_of` gives them so.
ghost use Rattle.std.specs.Prelude.{◌≡◌, ◌+◌, ◌*◌, ◌≤◌, ◌<◌, length};
ghost use Rattle.std.proofs.lemmas.List.Edits.{sets};
ghost use Rattle.bookfile.specs.Written.{size, head_part, joined, marks_part, amounts_part, kept_part, place_bytes, wrote_of, room_after};
ghost use Rattle.bookfile.specs.declared.Version.TheVariants.{Two};

use crate::forms::sort_at;
use crate::{SIZE, Version};
use numbers::{put2, put4, put8};
use table::Table;
use table::places::word_at;

fn put_head(room: &mut [u8], count: u16, serial: u16, next: u32)
    requires { 12 ≤ length room.old }
    ensures { room.new ≡ sets room.old 0 (head_part Two count serial next) }
{
    room[0] = b'L';
    room[1] = b'V';
    room[2] = b'B';
    room[3] = 2;
    put2(room, 4, count);
    put2(room, 6, serial);
    put4(room, 8, next);
}

fn put_marks(room: &mut [u8], place: usize, sort: u8, live: bool, tm: u16)
    requires { place + 4 ≤ length room.old }
    ensures { room.new ≡ sets room.old place (marks_part sort live tm) }
{
    room[place] = sort;
    room[place + 1] = u8::from(live);
    put2(room, place + 2, tm);
}

fn put_amounts(room: &mut [u8], place: usize, amounts: &[u64; 2560], i: usize)
    requires { (place + 80 ≤ length room.old) × (i < 256) }
    ensures { room.new ≡ sets room.old place (amounts_part amounts.now i) }
{
    for k in 0..10 {
        put8(room, place + 8 * k, word_at(amounts, k, i));
    }
}

fn put_kept(room: &mut [u8], place: usize, mode: bool, need: u64)
    requires { place + 9 ≤ length room.old }
    ensures { room.new ≡ sets room.old place (kept_part mode need) }
{
    room[place] = u8::from(mode);
    put8(room, place + 1, need);
}

fn put_places(t: Table, room: &mut [u8])
    requires { length room.old ≡ size }
    ensures { room.new ≡ sets room.old 12 (joined (place_bytes Two t) 256) }
{
    for i in 0..256 {
        let sort = sort_at(Version::Two, i);
        put2(room, sort - 2, t.numbers[i]);
        put_marks(room, sort, t.marks.sort[i], t.marks.live[i], t.marks.tm[i]);
        put_amounts(room, sort + 4, &t.amounts, i);
        put_kept(room, sort + 84, t.modes[i], t.needs[i]);
    }
}

// Puts a book's written form into a room, or refuses one that is shorter or longer.
pub fn write(t: Table, room: &mut [u8]) -> u8
    ensures value { result ≡ wrote_of room.old }
    ensures room_after { room.new ≡ room_after t room.old }
{
    if room.len() != SIZE {
        return 15;
    }
    put_head(room, t.count, t.serial, t.next);
    put_places(t, room);
    0
}
