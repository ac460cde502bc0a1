// The line of a set and a scheme: the set, the figures for the length 5, the sum of those for a
// large length, and `ok`, or what is wrong at which length. The large length is 12, or the largest
// whose table fits on the page: 9 or 10 for the three longest schemes of the input.
use crate::calls::{CELLS, RESULTS, run};
use crate::listed::listed;
use crate::sizes::{figure_count, largest_within, table_need};
use crate::sums::{is_plain, sum};
use forms::memory::{Patterns, Scheme};
use notation::patterns::read_patterns;
use notation::schemes::read_scheme;
use test_listing::permutations::LONGEST;
use test_support::print;

// the length whose figures are printed
const SHOWN: usize = 5;

// Reads the texts and prints the line.
pub fn line(set: &[u8], text: &[u8]) {
    print::text(set);
    let (Ok(patterns), Ok(scheme)) = (read_patterns(set), read_scheme(text)) else {
        print::text(b" unread\n");
        return;
    };
    print_length(b" at ", SHOWN);
    print::text(b":");
    run(&patterns, &scheme, SHOWN, CELLS, RESULTS).print_answer();
    let figures = are_listed(&patterns, &scheme);
    let sums = adds_up(&patterns, &scheme, largest_within(&scheme, CELLS));
    print::either(figures && sums, b" ok\n", b"\n");
}

// Whether the figures for the lengths 0 to 8 are those that listing finds.
fn are_listed(patterns: &Patterns, scheme: &Scheme) -> bool {
    let mut so = true;
    for n in 0..=LONGEST {
        so &= is_listed(patterns, scheme, n);
    }
    so
}

// Whether the figures for the length n are those that listing finds, and both pages are as they are
// to be. The table has just the cells that are needed. What is wrong is printed.
fn is_listed(patterns: &Patterns, scheme: &Scheme, n: usize) -> bool {
    let left = run(patterns, scheme, n, table_need(scheme, n), RESULTS);
    let answered = noted(left.figures().len() == figure_count(n), b"answer", n);
    let found = noted(left.results == listed(patterns, n), b"results", n);
    let cleared = noted(left.table, b"table", n);
    answered && found && cleared
}

// Prints the sum of the figures for the length n; whether the plain count is that sum, and both
// pages are as they are to be. The table has just the cells that are needed. What is wrong is
// printed.
fn adds_up(patterns: &Patterns, scheme: &Scheme, n: usize) -> bool {
    let left = run(patterns, scheme, n, table_need(scheme, n), RESULTS);
    let total = sum(left.figures());
    print_length(b"; at ", n);
    print::text(b" in all:");
    print::next_number(total);
    let answered = noted(left.figures().len() == figure_count(n), b"answer", n);
    let counted = noted(is_plain(patterns, scheme, n, total), b"sum", n);
    let kept = noted(left.is_in_order(), b"pages", n);
    answered && counted && kept
}

// Prints what is wrong at the length n, if it is not so; whether it is so.
fn noted(so: bool, what: &[u8], n: usize) -> bool {
    if !so {
        print::text(b" wrong: ");
        print::text(what);
        print_length(b" at ", n);
    }
    so
}

// Prints a word, and behind it a length.
fn print_length(word: &[u8], n: usize) {
    print::text(word);
    print::number(n as u64);
}
