// Which run of words an evening sum reads.
ghost use Rattle.std.specs.Prelude.{◌≡◌};
ghost use Rattle.book.specs.Inner.{amount_number};

use super::Amount;

pub(crate) fn amount_number(amount: Amount) -> usize
    ensures { result ≡ amount_number amount }
{
    match amount {
        Amount::ReceivedCash => 0,
        Amount::ReceivedDeposits => 1,
        Amount::ReceivedGuarantees => 2,
        Amount::ReceivedSecurities => 3,
        Amount::AllocatedCash => 4,
        Amount::AllocatedDeposits => 5,
        Amount::AllocatedGuarantees => 6,
        Amount::AllocatedSecurities => 7,
        Amount::Pledged => 8,
        Amount::Margin => 9,
    }
}
