// The figures of a set by listing all permutations of a length, trying every set of positions for
// each pattern, and comparing every two entries. It shares no code with the crates that count.
use crate::calls::RESULTS;
use crate::sizes::figure_count;
use forms::memory::Patterns;
use test_listing::cells::content;
use test_listing::permutations::{count, permutation};
use test_listing::sets::avoids;
use test_support::counts::count_if;
use test_support::parts::{prefix, suffix};

// What a page of results is to hold for the length n, at most eight: the figures in front, and
// behind them what it held before.
pub fn listed(patterns: &Patterns, n: usize) -> [u64; RESULTS] {
    let mut page = no_figures(figure_count(n));
    for i in 0..count(n) {
        let w = permutation(n, i);
        add(&mut page, patterns, prefix(&w, n));
    }
    page
}

// So many figures that are 0, and behind them what the page held before.
fn no_figures(figures: usize) -> [u64; RESULTS] {
    let mut page = [0u64; RESULTS];
    for (i, x) in page.iter_mut().enumerate() {
        *x = content(i, figures);
    }
    page
}

// Counts a permutation at its number of inversions, if it contains none of the patterns.
fn add(page: &mut [u64; RESULTS], patterns: &Patterns, w: &[u8]) {
    if avoids(patterns, w)
        && let Some(figure) = page.get_mut(inversions(w))
    {
        count_if(figure, true);
    }
}

// "pairs where a larger entry precedes a smaller" (02, order 5)
fn inversions(w: &[u8]) -> usize {
    let mut all: usize = 0;
    for (i, x) in w.iter().enumerate() {
        let behind = suffix(w, i + 1);
        all = all.wrapping_add(behind.iter().filter(|y| *y < x).count());
    }
    all
}
