// The number m of a set of patterns, from the words of order 3 and as it was before: compared
// spacings have a total below it.
use crate::copies::has_copy;
use crate::rows::Row;
use crate::texts::{digits, ends_pattern};

// The length of the longest of the patterns that contain no other pattern of the set.
pub fn longest(set: &[u8]) -> usize {
    let basic = set
        .split(ends_pattern)
        .map(digits)
        .filter(|p| !contains_another(set, p));
    basic.map(|p| p.size()).max().unwrap_or(0)
}

// The length of the longest of all patterns: m before order 3.
pub fn longest_of_all(set: &[u8]) -> usize {
    set.split(ends_pattern)
        .map(|p| digits(p).size())
        .max()
        .unwrap_or(0)
}

// Whether a pattern contains another pattern of the set.
fn contains_another(set: &[u8], p: &Row) -> bool {
    set.split(ends_pattern)
        .map(digits)
        .any(|q| q != *p && has_copy(&q, p))
}
