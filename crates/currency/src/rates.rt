// The table of rates: ten products by two sides.
ghost use Rattle.std.specs.Prelude.{◌≡◌, ◌<◌};
ghost use Rattle.currency.specs.Rates.{column_of, rate_of};

use crate::Side;

// How many products there are.
pub(crate) const PRODUCTS: u8 = 10;

// The mark for none, a number and no Option: `currency.Rates.none` has it in the table of rates.
pub(crate) const NONE: u64 = 65_535;

// Per 100,000 of notional: futures, then short options, then the product's name.
const RATES: [u64; 20] = [
    150, 750, // EURINR
    500, 500, // EURUSD
    250, 750, // GBPINR
    500, 500, // GBPUSD
    350, 750, // JPYINR
    500, 750, // USDINR
    500, 500, // USDJPY
    250, 250, // interest rate
    15, NONE, // 91 day T-bill
    500, NONE, // ONMIBOR
];

fn column(side: Side) -> usize
    ensures { result ≡ column_of side }
{
    match side {
        Side::Futures => 0,
        Side::Short => 1,
        Side::Long => 1,
        Side::Spread => 0,
    }
}

pub(crate) fn rate(product: u8, side: Side) -> u64
    requires { product < 10 }
    ensures { result ≡ rate_of product side }
{
    let at = 2 * product as usize + column(side);
    RATES[at]
}
