// What a client's figures come to.
ghost use Rattle.std.specs.Prelude.{true, ◌≡◌, ◌+ℤ◌};
ghost use Rattle.std.specs.Int.{w64};
ghost use Rattle.std.proofs.Common.{SFits};
ghost use Rattle.exposure.specs.Exposures.{in_range, payable_of, all_in_range, total_of};

// The largest figure, and the least one by its size.
const CEILING: i64 = 10_000_000_000_000;

fn in_range(figure: i64) -> bool
    ensures { result ≡ in_range figure }
{
    (-CEILING <= figure) & (figure <= CEILING)
}

pub(crate) fn all_in_range(premium: i64, loss: i64, exercise: i64, settlement: i64) -> bool
    ensures { result ≡ all_in_range premium loss exercise settlement }
{
    in_range(premium) & in_range(loss) & in_range(exercise) & in_range(settlement)
}

fn plus(a: i64, b: i64) -> i64
    requires { SFits w64 (a +ℤ b) }
    ensures { result ≡ a +ℤ b }
{
    a + b
}

fn payable(total: i64) -> u64
    ensures { result ≡ payable_of total }
{
    if 0 < total { total as u64 } else { 0 }
}

pub(crate) fn amount_of(premium: i64, loss: i64, exercise: i64, settlement: i64) -> u64
    requires { all_in_range premium loss exercise settlement ≡ true }
    ensures { result ≡ payable_of (total_of premium loss exercise settlement) }
{
    let intraday = plus(premium, loss);
    let exercised = plus(intraday, exercise);
    payable(plus(exercised, settlement))
}
