// A line looked for in a file.
ghost use Rattle.std.specs.Prelude.{◌≡◌, ◌&&◌, ◌≤◌, length, drop};
ghost use Rattle.archives.specs.Files.{starts_with, has_line};

// Whether the bytes from a place on begin with the line. Not the library's `starts_with`: it compares bytes in groups, and nearly every line of a file differs at the first.
fn starts_at(bytes: &[u8], at: usize, line: &[u8]) -> bool
    requires { at ≤ length bytes.now }
    ensures { result ≡ starts_with (drop at bytes.now) line.now }
{
    for (i, byte) in line.iter().enumerate() {
        if bytes.len() - at <= i {
            return false;
        }
        if bytes[at + i] != *byte {
            return false;
        }
    }
    true
}

// Whether a line begins at a place and the bytes there begin with this one.
fn is_at(begins: bool, bytes: &[u8], at: usize, line: &[u8]) -> bool
    requires { at ≤ length bytes.now }
    ensures { result ≡ (begins && starts_with (drop at bytes.now) line.now) }
{
    begins && starts_at(bytes, at, line)
}

// Whether a file whose lines are all ended has the line.
pub(crate) fn has_line(file: &[u8], line: &[u8]) -> bool
    ensures { result ≡ has_line file.now line.now }
{
    let mut begins = true;
    for (i, byte) in file.iter().enumerate() {
        if is_at(begins, file, i, line) {
            return true;
        }
        begins = *byte == b'\n';
    }
    false
}
