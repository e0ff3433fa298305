// The losses that a file's bytes say: eight bytes for each account, high byte first.
ghost use Rattle.std.specs.Prelude.{◌≡◌, ◌≤◌, take};
ghost use Rattle.numbers.specs.Bytes.{Bytes};
ghost use Rattle.closeouts.specs.Losses.{loss_count, losses_of};

use numbers::number8;

// The losses, with the accounts' numbers where a text names them.
#[derive(Clone, Copy)]
pub(crate) struct Losses {
    pub(crate) numbers: [u16; 256],
    pub(crate) list: [u64; 256],
    pub(crate) count: usize,
}

impl Losses {
    // None yet.
    pub(crate) fn none() -> Losses
        ensures { result.count ≡ 0 }
    {
        Losses {
            numbers: [0; 256],
            list: [0; 256],
            count: 0,
        }
    }
}

// A length that is no multiple of eight gives no losses, which suit no book.
#[tactic(auto, unfolding(crate::specs::Losses::loss_count, sums::specs::Choice::pick))]
fn count_of(length: usize) -> usize
    ensures { result ≡ loss_count length }
{
    if (length % 8 == 0) & (length <= 2048) {
        length / 8
    } else {
        0
    }
}

// That each element is a byte, the type says and a definition over lists can't.
pub(crate) fn list(bytes: &[u8]) -> Losses
    ensures count_bound { result.count ≤ 256 }
    ensures list_value { take result.count result.list ≡ losses_of bytes.now }
    ensures bytes { Bytes bytes.now }
{
    let count = count_of(bytes.len());
    let mut list = [0u64; 256];
    for i in 0..count {
        list[i] = number8(bytes, 8 * i);
    }
    Losses {
        numbers: [0; 256],
        list,
        count,
    }
}
