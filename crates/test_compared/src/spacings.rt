// All spacings of some numbers with a total below m, one after another: the first number goes up as
// long as the total stays below m, then it is 0 again and the second is one more, and so on.
use test_support::parts::{byte_at, suffix};
use test_witness::rows::Row;

// The first spacing of n numbers, all of them 0. For m = 0 there is none.
pub fn first(n: usize, m: usize) -> Option<Row> {
    if m == 0 { None } else { Some(zeros(n)) }
}

// The spacing behind g with a total below m: the first place that can be one more, with zeros in
// front of it.
pub fn next(g: &Row, m: usize) -> Option<Row> {
    let numbers = g.numbers();
    let place = (0..numbers.len()).find(|i| total(suffix(numbers, *i)).wrapping_add(1) < m)?;
    let mut row = zeros(place);
    row.push(byte_at(numbers, place).wrapping_add(1));
    for x in suffix(numbers, place.saturating_add(1)) {
        row.push(*x);
    }
    Some(row)
}

// A row of n zeros.
fn zeros(n: usize) -> Row {
    let mut row = Row::new();
    for _ in 0..n {
        row.push(0);
    }
    row
}

// The sum of the numbers of a part of a row. It is at most 15 times 255.
fn total(numbers: &[u8]) -> usize {
    numbers
        .iter()
        .fold(0, |sum: usize, x| sum.wrapping_add(usize::from(*x)))
}
