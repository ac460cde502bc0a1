// A test program: counts by pairs of lines, a set and a scheme, from standard input, and prints a
// line a pair. Its input holds the accepted schemes of the published papers; the counts that it is
// to print are theirs. Then come the examples of document 01 on lengths and tables, and sets of
// positions that no text gives.
#![tactic(auto)]

mod avoiders;
mod examples;
mod page;
mod sets;
mod tally;

use test_support::lines::{input, pairs_of};
use test_support::parts::prefix;

fn main() {
    let mut buffer = io::large_buffer();
    let n = input(&mut buffer);
    for (set, scheme) in pairs_of(prefix(&buffer, n)) {
        tally::line(set, scheme);
    }
    examples::lines();
    sets::lines();
}
