// The binomials C(n, k) for n up to LENGTH and k below COLUMNS, by Pascal's rule. C(n, k) stands
// at COLUMNS n + k.
ghost use Rattle.std.specs.Prelude.{◌≡◌, ◌+◌, ◌≤◌, ◌<◌};
ghost use Rattle.word.specs.Ceilings.{LENGTH, COLUMNS};
ghost use Rattle.cell.specs.Binomial.{binomial};
ghost use Rattle.spacing.specs.Pascal.{PascalTo, Pascal};

use word::limits::{COLUMNS, COUNTS};

// The binomials of all rows.
pub const BINOMIALS: usize = COUNTS * COLUMNS;

// All binomials, row after row.
pub fn binomials() -> [usize; BINOMIALS]
    ensures { Pascal result }
{
    let mut b = [0usize; BINOMIALS];
    for n in 0..COUNTS {
        fill_row(&mut b, n);
    }
    b
}

// Fills row n, from the row before it.
fn fill_row(b: &mut [usize], n: usize)
    requires { (n ≤ LENGTH) × PascalTo n 0 b.old }
    ensures { PascalTo (n + 1) 0 b.new }
{
    for k in 0..COLUMNS {
        let x = pascal_sum(b, n, k);
        b[COLUMNS * n + k] = x;
    }
}

// C(n, k), from the row before it.
fn pascal_sum(b: &[usize], n: usize, k: usize) -> usize
    requires { (n ≤ LENGTH) × (k < COLUMNS) × PascalTo n k b.now }
    ensures { result ≡ binomial n k }
{
    if k == 0 {
        return 1;
    }
    if n == 0 {
        return 0;
    }
    let at = COLUMNS * (n - 1) + k;
    b[at - 1] + b[at]
}

// C(n, k), looked up.
pub fn choose(b: &[usize], n: usize, k: usize) -> usize
    requires { (n ≤ LENGTH) × (k < COLUMNS) × Pascal b.now }
    ensures { result ≡ binomial n k }
{
    b[COLUMNS * n + k]
}
