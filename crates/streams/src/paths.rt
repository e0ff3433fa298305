// Files by the bytes of their names. std asks for names in UTF-8: another is answered with the system's number for bytes that are no text.
use std::fs::{File, OpenOptions};
use std::io::Error;
use std::{fs, io};

// EILSEQ.
const NO_TEXT: i32 = 84;

fn no_text() -> Error {
    Error::from_raw_os_error(NO_TEXT)
}

// A name as text.
fn path_of(name: &[u8]) -> io::Result<&str> {
    str::from_utf8(name).map_err(|_| no_text())
}

pub(crate) fn open_read(rt: &HostRuntime, name: &[u8]) -> io::Result<File> {
    File::open(rt, path_of(name)?)
}

// Makes a file that isn't there yet, and opens it for writing.
pub(crate) fn create(rt: &HostRuntime, name: &[u8]) -> io::Result<File> {
    let path = path_of(name)?;
    OpenOptions::new()
        .write(true)
        .create_new(true)
        .open(rt, path)
}

// Brings a file to another's place.
pub(crate) fn rename(rt: &HostRuntime, from: &[u8], to: &[u8]) -> io::Result<()> {
    fs::rename(rt, path_of(from)?, path_of(to)?)
}

// Takes a file away. Where that fails, it stays, and nothing more can be done.
pub(crate) fn unlink(rt: &HostRuntime, name: &[u8]) {
    if let Ok(path) = path_of(name) {
        let _ = fs::remove_file(rt, path);
    }
}
