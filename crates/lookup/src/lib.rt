// The row that a number names (K11).
#![tactic(auto)]

ghost use Rattle.std.specs.Prelude.{◌≡◌, ◌+◌, ◌<◌};
ghost use Rattle.rows.specs.Rows.{place_among};
ghost use Rattle.lookup.specs.Places.{Rising, Near};

// Of twice step places from lo on, which are all that may have the number, half are left out.
fn halve(numbers: &[u16; 256], top: usize, n: u16, lo: usize, step: usize) -> usize
    requires { Rising numbers.now top × Near numbers.now top n lo (step + step) × (0 < step) }
    ensures { Near numbers.now top n result step }
{
    let last = lo + step - 1;
    let up = (last < top) & (numbers[last] < n);
    if up { lo + step } else { lo }
}

// Eight steps without a branch, since which way each goes can't be foretold.
fn search(numbers: &[u16; 256], count: u16, n: u16) -> u16
    requires { Rising numbers.now count }
    ensures { result ≡ place_among numbers.now count n }
{
    let top = count as usize;
    let a = halve(numbers, top, n, 0, 128);
    let b = halve(numbers, top, n, a, 64);
    let c = halve(numbers, top, n, b, 32);
    let d = halve(numbers, top, n, c, 16);
    let e = halve(numbers, top, n, d, 8);
    let f = halve(numbers, top, n, e, 4);
    let g = halve(numbers, top, n, f, 2);
    let h = halve(numbers, top, n, g, 1);
    if (h < top) & (numbers[h] == n) {
        h as u16
    } else {
        count
    }
}

// The place of the row with this number, or count where none has it. Where nothing was archived below the number, it
// is its own place.
pub fn place_among(numbers: &[u16; 256], count: u16, n: u16) -> u16
    requires { Rising numbers.now count }
    ensures { result ≡ place_among numbers.now count n }
{
    if n < count {
        if numbers[n as usize] == n {
            return n;
        }
    }
    search(numbers, count, n)
}
