// A test program: counts by inversions, by pairs of lines from standard input, and prints a line a
// pair. The second line of a pair is a scheme. The first is one of these:
//
//     SET                          the figures for the lengths 0 to 8 against listing, and their
//                                  sum for the length 12 against the count
//     LABEL n CELLS RESULTS SET    one call for the length n, with slices of so many cells
//
// The input holds the accepted schemes of the published papers, and then single calls. Last come
// lists in memory that no text gives.
#![tactic(auto)]

mod calls;
mod cases;
mod listed;
mod lists;
mod sizes;
mod sums;
mod tally;

use test_support::lines::{input, pairs_of};
use test_support::parts::{behind, prefix};

fn main() {
    let mut buffer = io::large_buffer();
    let n = input(&mut buffer);
    for (first, scheme) in pairs_of(prefix(&buffer, n)) {
        test(first, scheme);
    }
    lists::lines();
}

// The line of one pair. A set alone has no space in it.
fn test(first: &[u8], scheme: &[u8]) {
    if behind(first, b' ').is_empty() {
        tally::line(first, scheme);
    } else {
        cases::line(first, scheme);
    }
}
