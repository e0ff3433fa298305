// Numbers as bytes, high byte first: read at a place of a piece, put at a place of a room. Internal: a caller sees to it that the bytes are there.
#![tactic(auto)]

ghost use Rattle.std.specs.Prelude.{◌≡◌, ◌+◌, ◌*◌, ◌≤◌, ◌<◌, length, take, drop};
ghost use Rattle.std.proofs.lemmas.List.Edits.{sets};
ghost use Rattle.numbers.specs.Bytes.{number, bytes_of};

// The N bytes at a place.
fn bytes_at<const N: usize>(piece: &[u8], place: usize) -> [u8; N]
    requires { place + N ≤ length piece.now }
    ensures { result ≡ take N (drop place piece.now) }
{
    let mut bytes = [0u8; N];
    bytes.copy_from_slice(&piece[place..place + N]);
    bytes
}

pub fn number2(piece: &[u8], place: usize) -> u16
    requires { place + 2 ≤ length piece.now }
    ensures { result ≡ number 2 (drop place piece.now) }
{
    u16::from_be_bytes(bytes_at(piece, place))
}

pub fn number4(piece: &[u8], place: usize) -> u32
    requires { place + 4 ≤ length piece.now }
    ensures { result ≡ number 4 (drop place piece.now) }
{
    u32::from_be_bytes(bytes_at(piece, place))
}

pub fn number8(piece: &[u8], place: usize) -> u64
    requires { place + 8 ≤ length piece.now }
    ensures { result ≡ number 8 (drop place piece.now) }
{
    u64::from_be_bytes(bytes_at(piece, place))
}

// The number of eight bytes where the bit is 1, of none where it is 0.
pub fn number8_if(piece: &[u8], place: usize, bit: u8) -> u64
    requires { (place + 8 * bit ≤ length piece.now) × (bit < 2) }
    ensures { result ≡ number (8 * bit) (drop place piece.now) }
{
    if bit == 0 { 0 } else { number8(piece, place) }
}

pub fn put2(room: &mut [u8], place: usize, x: u16)
    requires { place + 2 ≤ length room.old }
    ensures { room.new ≡ sets room.old place (bytes_of 2 x) }
{
    room[place..place + 2].copy_from_slice(&x.to_be_bytes());
}

pub fn put4(room: &mut [u8], place: usize, x: u32)
    requires { place + 4 ≤ length room.old }
    ensures { room.new ≡ sets room.old place (bytes_of 4 x) }
{
    room[place..place + 4].copy_from_slice(&x.to_be_bytes());
}

pub fn put8(room: &mut [u8], place: usize, x: u64)
    requires { place + 8 ≤ length room.old }
    ensures { room.new ≡ sets room.old place (bytes_of 8 x) }
{
    room[place..place + 8].copy_from_slice(&x.to_be_bytes());
}
