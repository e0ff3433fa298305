// Amounts kind by kind.
ghost use Rattle.std.specs.Prelude.{◌≡◌, ◌+◌};
ghost use Rattle.rows.specs.Rows.{plus_kinds, less_kinds};
ghost use Rattle.rows.specs.Facts.{KindsWithin};
ghost use Rattle.rows.specs.Ranges.{ceilings};

use rows::Kinds;
use rows::deemed::less;

pub fn plus_kinds(a: Kinds, b: Kinds) -> Kinds
    requires { KindsWithin a ceilings × KindsWithin b ceilings }
    ensures { result ≡ plus_kinds a b }
{
    Kinds {
        cash: a.cash + b.cash,
        deposits: a.deposits + b.deposits,
        guarantees: a.guarantees + b.guarantees,
        securities: a.securities + b.securities,
    }
}

pub fn less_kinds(a: Kinds, b: Kinds) -> Kinds
    ensures { result ≡ less_kinds a b }
{
    Kinds {
        cash: less(a.cash, b.cash),
        deposits: less(a.deposits, b.deposits),
        guarantees: less(a.guarantees, b.guarantees),
        securities: less(a.securities, b.securities),
    }
}
