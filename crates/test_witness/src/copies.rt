// Containment, and the first copy of the earliest pattern, by trying every set of positions.
use crate::rows::Row;
use crate::texts::{digits, ends_pattern};

// Whether a permutation contains none of the patterns of a set.
pub fn avoids_all(set: &[u8], w: &Row) -> bool {
    set.split(ends_pattern).all(|p| !has_copy(&digits(p), w))
}

// The positions of the lexicographically first copy of the earliest pattern of a set that has one
// in a permutation.
pub fn earliest_copy(set: &[u8], w: &Row) -> Option<Row> {
    set.split(ends_pattern)
        .find_map(|p| first_copy(&digits(p), w))
}

// Whether some set of positions is a copy.
pub fn has_copy(p: &Row, w: &Row) -> bool {
    (0..sets(w)).any(|places| is_copy(p, w, places))
}

// The least of the positions of all copies.
fn first_copy(p: &Row, w: &Row) -> Option<Row> {
    (0..sets(w))
        .filter(|places| is_copy(p, w, *places))
        .map(positions)
        .min()
}

// How many sets of positions a permutation has.
fn sets(w: &Row) -> usize {
    1 << w.size()
}

// The positions of a set, ascending.
fn positions(places: usize) -> Row {
    let all = [15u8, 1, 2, 3, 4, 5, 6, 7, 8, 9, 10, 11, 12, 13, 14, 15];
    Row::at(&all, 0).picked(places)
}

// Whether the entries at the positions of a set are a copy of the pattern: reduced they are the
// pattern. A set of another size is left at once. An empty row is no pattern.
fn is_copy(p: &Row, w: &Row, places: usize) -> bool {
    0 < p.size() && places.count_ones() as usize == p.size() && w.picked(places).reduced() == *p
}
