// The words of products.
ghost use Rattle.std.specs.Prelude.{◌≡◌};
ghost use Rattle.std.specs.List.{list_all};
ghost use Rattle.margins.specs.Products.{product_of, capital_or_digit, names_product};

use streams::words::is_same;

fn is_capital_or_digit(byte: u8) -> bool
    ensures { result ≡ capital_or_digit byte }
{
    ((b'A' <= byte) & (byte <= b'Z')) | ((b'0' <= byte) & (byte <= b'9'))
}

fn is_all_capitals_or_digits(word: &[u8]) -> bool
    ensures { result ≡ list_all capital_or_digit word.now }
{
    word.iter().all(|byte| is_capital_or_digit(*byte))
}

// Whether a word may name a product, known or not.
pub(crate) fn names_product(word: &[u8]) -> bool
    ensures { result ≡ names_product word.now }
{
    is_all_capitals_or_digits(word) & !word.is_empty()
}

// A product's number, in the paper's order; 10 for any other, since `currency::Position` holds any number and `currency` refuses that one. Not a `match` on the bytes: it leaves a goal for each byte of each word.
pub(crate) fn product_of(word: &[u8]) -> u8
    ensures { result ≡ product_of word.now }
{
    if is_same(word, b"EURINR") {
        return 0;
    }
    if is_same(word, b"EURUSD") {
        return 1;
    }
    if is_same(word, b"GBPINR") {
        return 2;
    }
    if is_same(word, b"GBPUSD") {
        return 3;
    }
    if is_same(word, b"JPYINR") {
        return 4;
    }
    if is_same(word, b"USDINR") {
        return 5;
    }
    if is_same(word, b"USDJPY") {
        return 6;
    }
    if is_same(word, b"INTEREST") {
        return 7;
    }
    if is_same(word, b"TBILL91") {
        return 8;
    }
    if is_same(word, b"ONMIBOR") {
        return 9;
    }
    10
}
