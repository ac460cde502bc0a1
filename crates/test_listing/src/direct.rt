// Containment, and the first copy, by trying every set of positions. It shares no code with the
// crate `word`, and never goes back from a part of a copy.

// the most entries of a permutation that are looked at
pub const LENGTH: usize = 20;
// the most entries of a pattern
const PATTERN: usize = 8;

// Whether some entries of w, in their order, compare pairwise as those of p.
pub fn has_copy(p: &[u8], w: &[u8]) -> bool {
    (0..subsets(w.len())).any(|subset| is_copy(p, w, subset))
}

// The positions, counted from 1, of the lexicographically first of all such copies, and zeros after
// them. It compares every copy with the least so far.
pub fn first_positions(p: &[u8], w: &[u8]) -> Option<[u8; LENGTH]> {
    let copies = (0..subsets(w.len())).filter(|subset| is_copy(p, w, *subset));
    copies.map(positions).min()
}

// The positions of a set, counted from 1: the entries of 1, 2, .., 20 there.
fn positions(subset: usize) -> [u8; LENGTH] {
    let all = [
        1u8, 2, 3, 4, 5, 6, 7, 8, 9, 10, 11, 12, 13, 14, 15, 16, 17, 18, 19, 20,
    ];
    entries_at(&all, subset)
}

// How many sets of positions a permutation of length n, at most 20, has: 2 to the n.
fn subsets(n: usize) -> usize {
    1 << n.min(LENGTH)
}

// Whether the entries of w at the positions of a set are a copy of p. The index i is in the set if
// the binary digit of weight 2 to the i is 1. A set of another size is left at once.
fn is_copy(p: &[u8], w: &[u8], subset: usize) -> bool {
    p.len() <= PATTERN
        && subset.count_ones() as usize == p.len()
        && same_order(p, &entries_at(w, subset))
}

// The entries of w at the positions of a set, in front, and zeros after them.
fn entries_at(w: &[u8], subset: usize) -> [u8; LENGTH] {
    let mut entries = [0u8; LENGTH];
    let mut places = entries.iter_mut();
    let mut rest = subset;
    for x in w {
        if rest % 2 == 1
            && let Some(place) = places.next()
        {
            *place = *x;
        }
        rest /= 2;
    }
    entries
}

// Whether each two entries of a compare as those of b, both ways.
fn same_order(a: &[u8], b: &[u8]) -> bool {
    a.iter()
        .zip(b)
        .all(|(x, y)| a.iter().zip(b).all(|(u, v)| (x < u) == (y < v)))
}
