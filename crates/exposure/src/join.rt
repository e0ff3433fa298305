// What is payable joined to K9's sum.
ghost use Rattle.std.specs.Prelude.{◌≡◌, ◌≤◌};
ghost use Rattle.exposure.specs.Inner.{Bounded, with_exposure};

use currency::{CEILING, Made, Record};

fn with_amount(record: Record, amount: u64) -> Made
    requires { («record».margin ≤ 10_000_000_000_000) × (amount ≤ 40_000_000_000_000) }
    ensures { result ≡ with_exposure (Made.Given «record») 0 amount }
{
    let sum = record.margin + amount;
    if CEILING < sum {
        return Made::Refused(21);
    }
    let mut more = record;
    more.margin = sum;
    Made::Given(more)
}

// 22 stands before 21, and behind every other refusal.
pub(crate) fn with_exposure(made: Made, refusal: u8, amount: u64) -> Made
    requires { Bounded made × (amount ≤ 40_000_000_000_000) }
    ensures { result ≡ with_exposure made refusal amount }
{
    match made {
        Made::Refused(n) => {
            if (n == 21) & (refusal != 0) {
                Made::Refused(refusal)
            } else {
                Made::Refused(n)
            }
        }
        Made::Given(record) => {
            if refusal != 0 {
                Made::Refused(refusal)
            } else {
                with_amount(record, amount)
            }
        }
    }
}
