// Why a call failed, in the system's words.
ghost use Rattle.std.specs.Prelude.{◌≡◌, ◌≤◌, length};
ghost use Rattle.std.specs.IoError.{raw_os_error};
ghost use Rattle.streams.specs.Calls.{error_is};

use crate::standard::tell;
use std::io::{Cursor, Error, Write};

// The longest of the system's reasons, and the number behind it.
const ROOM: usize = 256;

// Whether an error has this number of the system's.
pub(crate) fn has_number(error: Error, number: i32) -> bool
    ensures { result ≡ error_is number (raw_os_error error) }
{
    match error.raw_os_error() {
        Some(n) => n == number,
        None => false,
    }
}

// The reason of a call that failed. One that took nothing has none of its own.
pub(crate) fn reason(why: Option<Error>) -> Error {
    match why {
        Some(error) => error,
        None => Error::from_raw_os_error(0),
    }
}

// Where the system's words end: std puts the number behind them, as ` (os error 2)`.
fn words_end(text: &[u8]) -> usize
    ensures { result ≤ length text.now }
{
    for i in 0..text.len() {
        if text[i..].starts_with(b" (os error ") {
            return i;
        }
    }
    text.len()
}

// A colon, the reason and the line's end.
pub(crate) fn tell_reason(rt: &HostRuntime, why: Error) {
    let mut room = [0u8; ROOM];
    let mut out = Cursor::new(&mut room[..]);
    let _ = write!(out, "{why}");
    let n = out.position().min(ROOM as u64) as usize;
    let end = words_end(&room[..n]);
    tell(rt, b": ");
    tell(rt, &room[..end]);
    tell(rt, b"\n");
}
