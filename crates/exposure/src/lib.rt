// Crystallised obligations by client: the intraday current exposure margin, its end of day form, and both joined to K9's sum (K10).
#![tactic(auto)]

ghost use Rattle.std.specs.Prelude.{◌≡◌};
ghost use Rattle.exposure.specs.Exposures.{exposure_of, intraday_of};
ghost use Rattle.currency.specs.Margins.{number_made};
ghost use Rattle.exposure.specs.Joined.{refusal_of, joined_of};

use amounts::{all_in_range, amount_of};
use join::with_exposure;

mod amounts;
mod join;
pub mod lists;

pub use currency::{Made, Position};

// What is payable, or the refusal with an amount of 0: both numbers, as `exposure.Exposures.exposure_of` and a list of clients (`number_in_room`) give them.
#[derive(Clone, Copy)]
pub struct Exposure {
    pub refusal: u8,
    pub amount: u64,
}

// What a client's figures of the end of day come to, in paise: premium payable less receivable, crystallised loss less profit, exercise, final settlement.
pub fn end_of_day(premium: i64, loss: i64, exercise: i64, settlement: i64) -> Exposure
    ensures { result ≡ exposure_of premium loss exercise settlement }
{
    if !all_in_range(premium, loss, exercise, settlement) {
        return Exposure {
            refusal: 22,
            amount: 0,
        };
    }
    Exposure {
        refusal: 0,
        amount: amount_of(premium, loss, exercise, settlement),
    }
}

pub fn intraday(premium: i64, loss: i64) -> Exposure
    ensures { result ≡ intraday_of premium loss }
{
    end_of_day(premium, loss, 0, 0)
}

// The record that sets an account's margin to K9's sum and what is payable.
pub fn margin(
    serial: u16,
    account: u16,
    initial: u64,
    positions: [Position; 64],
    number: usize,
    premium: i64,
    loss: i64,
    exercise: i64,
    settlement: i64,
) -> Made
    ensures value { result ≡ joined_of serial account initial positions number premium loss exercise settlement }
    ensures result_value { number_made result ≡ refusal_of premium loss exercise settlement initial positions number }
{
    let exposure = end_of_day(premium, loss, exercise, settlement);
    let made = currency::margin(serial, account, initial, positions, number);
    with_exposure(made, exposure.refusal, exposure.amount)
}
