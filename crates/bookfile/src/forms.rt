// How long each version of the written form is, and where its places stand.
ghost use Rattle.std.specs.Prelude.{◌≡◌, ◌+◌, ◌≤◌, ◌<◌};
ghost use Rattle.bookfile.specs.Versions.{size_of, version_byte, sort_at};

use crate::{SIZE, Version};

pub(crate) fn size_of(v: Version) -> usize
    ensures { result ≡ size_of v }
{
    match v {
        Version::One => 23_816,
        Version::Two => SIZE,
    }
}

pub(crate) fn version_byte(v: Version) -> u8
    ensures { result ≡ version_byte v }
{
    match v {
        Version::One => 1,
        Version::Two => 2,
    }
}

// Where the sort of place i stands. The 92 bytes behind it are the same in both.
pub(crate) fn sort_at(v: Version, i: usize) -> usize
    requires { i < 256 }
    ensures { (result ≡ sort_at v i) × (result + 93 ≤ size_of v) }
{
    match v {
        Version::One => 8 + 93 * i,
        Version::Two => 12 + 95 * i + 2,
    }
}
