// A test program: judges pairs of lines, a set and a scheme, from standard input, and prints a line
// a pair. For an acceptance it has the number of compared cells that judging gives, and the numbers
// that listing the spacings gives: for m of the patterns that contain no other (order 3), and for m
// of all patterns, as it was before. A further word says that they do not fit together; the last
// line counts.
#![tactic(auto)]

mod cells;
mod spacings;

use cells::compared;
use judge_texts::judge_texts_without_page;
use test_support::counts::count_if;
use test_support::lines::{input, pairs_of};
use test_support::parts::prefix;
use test_support::print;
use test_witness::basis::{longest, longest_of_all};
use word::refusal::Refused;

// What was counted over the pairs.
#[derive(Clone, Copy, Default)]
struct Tally {
    pairs: u64,
    accepted: u64,
    wrong: u64,
    different: u64,
}

// A number m, and how many cells are compared for it.
#[derive(Clone, Copy)]
struct Listed {
    m: usize,
    cells: u64,
}

fn main() {
    let mut buffer = io::large_buffer();
    let n = input(&mut buffer);
    let mut t = Tally::default();
    for (set, scheme) in pairs_of(prefix(&buffer, n)) {
        t.pair(set, scheme);
    }
    t.print();
}

impl Tally {
    // Prints the line of a pair, and counts it.
    fn pair(&mut self, set: &[u8], scheme: &[u8]) {
        count_if(&mut self.pairs, true);
        match judge_texts_without_page(set, scheme) {
            Ok(cells) => {
                let by_order = cells_for(scheme, longest(set));
                let of_all = cells_for(scheme, longest_of_all(set));
                self.acceptance(cells as u64, by_order, of_all);
            }
            Err(refused) => print_refused(refused),
        }
    }

    // Prints and counts an acceptance.
    fn acceptance(&mut self, cells: u64, by_order: Listed, of_all: Listed) {
        let right = fit(cells, by_order, of_all);
        print::text(b"accepted");
        print::next_number(cells);
        print::text(b", m");
        print_listed(by_order);
        print::text(b", of all");
        print_listed(of_all);
        print::either(right, b"\n", b" wrong\n");
        count_if(&mut self.accepted, true);
        count_if(&mut self.wrong, !right);
        count_if(&mut self.different, by_order.m != of_all.m);
    }

    // Prints what was counted: the pairs, those that were accepted, of these how many numbers did
    // not fit together, and how many sets had two different m.
    fn print(&self) {
        print::text(b"pairs");
        print::next_number(self.pairs);
        print::text(b" accepted");
        print::next_number(self.accepted);
        print::text(b" wrong");
        print::next_number(self.wrong);
        print::text(b" two different m");
        print::next_number(self.different);
        print::end();
    }
}

// Prints the line of a refusal.
fn print_refused(refused: Refused) {
    print::refused(u8::from(refused.refusal), refused.index);
    print::end();
}

// The compared cells of a scheme for an m.
fn cells_for(scheme: &[u8], m: usize) -> Listed {
    Listed {
        m,
        cells: compared(scheme, m),
    }
}

// Whether judging gives the number that was listed for m of order 3; this m is not the larger one,
// nor are the cells for it more; and for the same m they are as many.
fn fit(cells: u64, by_order: Listed, of_all: Listed) -> bool {
    if cells != by_order.cells {
        return false;
    }
    if of_all.m < by_order.m {
        return false;
    }
    if of_all.m == by_order.m {
        return of_all.cells == by_order.cells;
    }
    by_order.cells <= of_all.cells
}

// Prints m and the number of cells.
fn print_listed(one: Listed) {
    print::next_number(one.m as u64);
    print::text(b":");
    print::next_number(one.cells);
}
