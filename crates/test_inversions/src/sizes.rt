// How many figures a length has, and how many cells its table needs.
use forms::memory::Scheme;
use test_listing::need::need;
use test_listing::permutations::LONGEST;

// "For n up to 12" (02, order 5)
pub const LARGEST: usize = 12;

// n(n - 1)/2 + 1: one figure for 0, 1, .., 0 + 1 + .. + (n - 1) inversions.
pub fn figure_count(n: usize) -> usize {
    (0..n).fold(1, |total: usize, i| total.wrapping_add(i))
}

// "Table need is that of order 4 times n(n − 1)/2 + 1" (02, order 5). For a length above 12, which
// is refused, it is 0.
pub fn table_need(scheme: &Scheme, n: usize) -> usize {
    if LARGEST < n {
        return 0;
    }
    need(scheme, n).wrapping_mul(figure_count(n))
}

// The largest length up to 12 whose table has at most so many cells, or that of the longest listed
// permutations if none above it does.
pub fn largest_within(scheme: &Scheme, cells: usize) -> usize {
    let mut longer = (LONGEST + 1..=LARGEST).rev();
    longer
        .find(|n| table_need(scheme, *n) <= cells)
        .unwrap_or(LONGEST)
}
