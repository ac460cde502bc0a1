// Following next from the first avoider, against the list by brute force: all permutations of a
// length in lexicographic order, less those that contain a pattern.
use crate::calls::{Left, PAGE, first, next, print_entries};
use forms::memory::Patterns;
use test_listing::permutations::{count, ordered};
use test_listing::sets::avoids;
use test_support::counts::count_if;
use test_support::parts::prefix;
use test_support::print;

// What the last call left, how many avoiders were given, and whether each was the one of the list.
#[derive(Clone, Copy)]
struct Walk {
    left: Left,
    given: u64,
    right: bool,
}

// How many avoiders of length n, at most LONGEST, are given. What differs from the list is printed.
pub fn given(patterns: &Patterns, n: usize) -> u64 {
    let mut walk = Walk {
        left: first(patterns, n, PAGE),
        given: 0,
        right: true,
    };
    for i in 0..count(n) {
        walk.pass(patterns, prefix(&ordered(n, i), n));
    }
    walk.end(n);
    walk.given
}

impl Walk {
    // Goes past a permutation: where it avoids, it has to be what was given, and its next is asked
    // for.
    fn pass(&mut self, patterns: &Patterns, w: &[u8]) {
        if !avoids(patterns, w) {
            return;
        }
        self.right = self.right && is_right(&self.left, w);
        count_if(&mut self.given, self.left.is_given());
        self.left = next(patterns, w, PAGE);
    }

    // At the end of the list there is nothing more to give, and the page is as it was.
    fn end(&self, n: usize) {
        if !(self.left.is_nothing() && self.left.is_kept(n)) {
            print::text(b" (expected nothing");
            self.left.print(n);
            print::text(b")");
        }
    }
}

// Whether a call left just these entries. What it left else is printed.
fn is_right(left: &Left, expected: &[u8]) -> bool {
    let right = left.is_given_as(expected);
    if !right {
        print::text(b" (expected");
        print_entries(expected);
        left.print(expected.len());
        print::text(b")");
    }
    right
}
