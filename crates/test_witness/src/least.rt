// Whether a lost permutation is the least one, by going through all permutations up to its length.
use crate::lost::{Deletion, spacing};
use crate::rows::Row;
use crate::texts::prefix;
use test_listing::permutations::{LONGEST, count, permutation};

// Whether the permutations up to the length of this one are listed.
pub fn is_listed(w: &Row) -> bool {
    w.size() <= LONGEST
}

// Whether no permutation that the deletion loses comes before this one. Shorter ones than the
// prefix do not begin with it.
pub fn is_least(d: &Deletion<'_>, w: &Row) -> bool {
    let k = prefix(d.entry).size();
    (0..=w.size()).all(|n| !some_before(d, k, w, n))
}

// Whether some permutation of length n that the deletion loses comes before this one.
fn some_before(d: &Deletion<'_>, k: usize, w: &Row, n: usize) -> bool {
    (0..count(n))
        .map(|i| listed(n, i))
        .any(|v| comes_before(k, &v, w) && d.loses(&v))
}

// Whether v comes before w: by total, which is by length, then by the spacing of its first k
// entries, then by entries.
fn comes_before(k: usize, v: &Row, w: &Row) -> bool {
    (v.size(), spacing(k, v), *v) < (w.size(), spacing(k, w), *w)
}

// The permutation of length n with a number, as a row.
fn listed(n: usize, number: usize) -> Row {
    let mut row = Row::new();
    for x in permutation(n, number).iter().take(n) {
        row.push(*x);
    }
    row
}
