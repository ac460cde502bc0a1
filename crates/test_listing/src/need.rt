// The cells that counting needs, as a formula: "(1 + the largest set) times the sum in 01"
// (02, order 4), which is that of C(n, k) over all entries, k being the entry's length. No sum or
// product here comes near the largest number.
use forms::memory::{Rule, Scheme};
use word::limits::PREFIX;

// how many binomials of a row are kept: those for the lengths of prefixes, 0 to PREFIX
const ROW: usize = PREFIX + 1;

// The cells that a scheme needs at the length n.
pub fn need(s: &Scheme, n: usize) -> usize {
    over_entries(s, &row_of(n)).wrapping_mul(largest(s).wrapping_add(1))
}

// How many positions the entry deletes that deletes the most.
fn largest(s: &Scheme) -> usize {
    s.entries
        .iter()
        .take(s.count)
        .map(|e| deleted_by(e.rule))
        .max()
        .unwrap_or(0)
}

// How many positions a rule deletes.
fn deleted_by(rule: Rule) -> usize {
    match rule {
        Rule::Expand => 0,
        Rule::Delete(d) => usize::from(d.count),
    }
}

// The sum of C(n, k) over all entries, from the row of n. There is none of C(n, k) behind the row.
fn over_entries(s: &Scheme, row: &[usize; ROW]) -> usize {
    let entries = s.entries.iter().take(s.count);
    let binomials = entries.filter_map(|e| row.get(e.length));
    binomials.fold(0, |total: usize, x| total.wrapping_add(*x))
}

// C(n, 0) to C(n, 6): n times the next row after that of 0.
fn row_of(n: usize) -> [usize; ROW] {
    let mut row = [1usize, 0, 0, 0, 0, 0, 0];
    for _ in 0..n {
        step(&mut row);
    }
    row
}

// The next row of Pascal's triangle: each entry is the sum of the two above it.
fn step(row: &mut [usize; ROW]) {
    for k in (1..ROW).rev() {
        row[k] = row[k].wrapping_add(row[k - 1]);
    }
}
