// The closing line, put at a room's start.
ghost use Rattle.std.specs.Prelude.{[], ◌∷◌, ◌++◌, ◌≤◌, length};
ghost use Rattle.text.specs.Numbers.{space};
ghost use Rattle.text.specs.Inner.{Puts};
ghost use Rattle.lines.specs.Lines.{word_of, closing_line_of};

use records::Closing;
use text::{put_number, put_text};

// Puts the closing word and a space, and gives the place after both.
fn put_word(room: &mut [u8], closing: Closing) -> usize
    requires { 5 ≤ length room.old }
    ensures { Puts room.old 0 (word_of closing ++ (space ∷ [])) room.new result }
{
    match closing {
        Closing::End => put_text(room, 0, b"end "),
        Closing::Cut => put_text(room, 0, b"cut "),
        Closing::Long => put_text(room, 0, b"long "),
        Closing::Unsound => put_text(room, 0, b"1 "),
    }
}

pub(crate) fn put_closing(room: &mut [u8], closing: Closing, read: u64, done: u64) -> usize
    requires { 64 ≤ length room.old }
    ensures { Puts room.old 0 (closing_line_of closing read done) room.new result }
{
    let p1 = put_word(room, closing);
    let p2 = put_number(room, p1, read, b' ');
    put_number(room, p2, done, b'\n')
}
