// The sum of figures, and whether it is the count by the table.
use counting::by_table::count;
use forms::memory::{Patterns, Scheme};
use test_listing::cells::OLD;

// the cells of a table for the count: more than any scheme of the input needs for it
const CELLS: usize = 16384;

// The sum of figures.
pub fn sum(figures: &[u64]) -> u64 {
    figures
        .iter()
        .fold(0, |total: u64, x| total.wrapping_add(*x))
}

// Whether the count for the length n is this number. A refusal is no number.
pub fn is_plain(patterns: &Patterns, scheme: &Scheme, n: usize, total: u64) -> bool {
    let mut table = [OLD; CELLS];
    count(*patterns, *scheme, n, &mut table).is_ok_and(|c| c == total)
}
