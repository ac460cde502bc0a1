// Lists of entries: whether one is a permutation.

// Whether each number from 1 to the length is an entry.
pub fn is_permutation(w: &[u8]) -> bool {
    (1..=w.len()).all(|x| w.iter().any(|y| usize::from(*y) == x))
}
