// Avoidance of a set of patterns in memory, by trying every set of positions for each of them.
use crate::direct::has_copy;
use forms::memory::{Pattern, Patterns};
use word::limits::DIGITS;

// Whether w contains none of the patterns. What stands in memory is cut here, and not by `forms`.
pub fn avoids(patterns: &Patterns, w: &[u8]) -> bool {
    patterns
        .items
        .iter()
        .take(patterns.count)
        .all(|p| !has_copy(digits(p), w))
}

// The digits of a pattern.
fn digits(p: &Pattern) -> &[u8] {
    &p.digits[..p.length.min(DIGITS)]
}
