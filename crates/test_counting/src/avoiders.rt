// The number of permutations that avoid a set, by listing all of them and trying every set of
// positions. It shares no code with the crates that count.
use forms::memory::Patterns;
use test_listing::permutations::{count, permutation};
use test_listing::sets::avoids;
use test_support::parts::prefix;

// How many permutations of length n, at most eight, contain none of the patterns.
pub fn avoiders(patterns: &Patterns, n: usize) -> u64 {
    let all = (0..count(n)).map(|i| permutation(n, i));
    all.filter(|w| avoids(patterns, prefix(w, n))).count() as u64
}
