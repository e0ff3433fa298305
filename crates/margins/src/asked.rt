// The words: `SERIAL ACCOUNT INITIAL`, with `--record` in front where the record is asked for.
ghost use Rattle.std.specs.Prelude.{◌≡◌};
ghost use Rattle.margins.specs.Asked.{asked_for, asked_by_words, Came};

use streams::words::{blank, count, is_same, put_or_none};
use text::decimals::number_of;

#[derive(Clone, Copy)]
pub(crate) struct Asked {
    pub(crate) record: bool,
    pub(crate) serial: u16,
    pub(crate) account: u16,
    pub(crate) initial: u64,
}

#[tactic(auto, unfolding(crate::specs::Asked::asked_for, sums::specs::Choice::pick))]
fn from_three(
    record: bool,
    serial: Option<u64>,
    account: Option<u64>,
    initial: Option<u64>,
) -> Option<Asked>
    ensures { result ≡ asked_for «record» serial account initial }
{
    let serial = serial?;
    let account = account?;
    let initial = initial?;
    Some(Asked {
        record,
        serial: u16::try_from(serial).ok()?,
        account: u16::try_from(account).ok()?,
        initial,
    })
}

// So many words, the program's own name among them; the first four behind the name.
#[tactic(auto, unfolding(crate::specs::Asked::asked_by_words, sums::specs::Choice::pick))]
fn from_four(count: usize, a: &[u8], b: &[u8], c: &[u8], d: &[u8]) -> Option<Asked>
    ensures { result ≡ asked_by_words count a.now b.now c.now d.now }
{
    if count == 4 {
        return from_three(false, number_of(a), number_of(b), number_of(c));
    }
    if count != 5 {
        return None;
    }
    if !is_same(a, b"--record") {
        return None;
    }
    from_three(true, number_of(b), number_of(c), number_of(d))
}

// A word that is missing, or too long for its room, counts as empty.
pub(crate) fn from_words(rt: &HostRuntime) -> Option<Asked>
    ensures { Came result }
{
    let mut a = blank();
    let mut b = blank();
    let mut c = blank();
    let mut d = blank();
    let first = put_or_none(rt, 1, &mut a);
    let second = put_or_none(rt, 2, &mut b);
    let third = put_or_none(rt, 3, &mut c);
    let fourth = put_or_none(rt, 4, &mut d);
    from_four(
        count(rt),
        &a[..first],
        &b[..second],
        &c[..third],
        &d[..fourth],
    )
}
