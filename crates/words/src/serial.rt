// The running serial: the one that a line without `serial` gets.
ghost use Rattle.std.specs.Prelude.{◌≡◌};
ghost use Rattle.words.specs.Texts as t;

use numbers::number2;

// The running serial after the bytes of a line or of a record.
pub fn moved(running: u16, bytes: &[u8]) -> u16
    ensures { result ≡ t.moved running bytes.now }
{
    if bytes.len() < 4 {
        return running;
    }
    if number2(bytes, 2) == running {
        return std::num::wrapping_add_u16(running, 1);
    }
    running
}
