// The line of a set at the length 20: its text, the first avoider, the one that ten nexts lead to,
// and the last, or that there is none. The last is the complement of the first avoider of the
// complements of the patterns. What is wrong with any of them is printed behind it.
use crate::calls::{Left, PAGE, first, next, print_entries};
use forms::memory::Patterns;
use notation::patterns::read_patterns;
use test_listing::sets::avoids;
use test_listing::words::is_permutation;
use test_support::counts::count_if;
use test_support::print;
use text_patterns::pattern_reader::no_patterns;

// the length of the avoiders
const LENGTH: usize = 20;
// how many nexts are asked for
const NEXTS: usize = 10;

// An avoider, how many nexts led to it, and whether another was given behind it.
#[derive(Clone, Copy)]
struct Way {
    page: [u8; PAGE],
    nexts: u64,
    goes_on: bool,
}

// Prints the line of a set. It says where the text is refused, and goes on with a set of none.
pub fn line(set: &[u8]) {
    print::text(set);
    let read = read_patterns(set);
    print::either(read.is_err(), b" unread", b"");
    let patterns = read.unwrap_or(no_patterns());
    of_first(&patterns, &first(&patterns, LENGTH, PAGE));
    print::end();
}

// Prints what is wrong, if it is not so.
fn check(so: bool, wrong: &[u8]) {
    print::either(so, b"", wrong);
}

// Prints the first, and what comes behind it.
fn of_first(patterns: &Patterns, left: &Left) {
    check(left.is_kept(LENGTH), b" wrong: page");
    if left.is_given() {
        print::text(b" first");
        print_given(patterns, &left.page);
        of_last(patterns, &followed(patterns, left.page));
    } else {
        print::either(left.is_nothing(), b" none", b" wrong: refused");
        check(last_turned(patterns).is_nothing(), b" wrong: a last one");
    }
}

// Prints the entries of a page, and what is wrong with them.
fn print_given(patterns: &Patterns, page: &[u8; PAGE]) {
    print_entries(avoider(page));
    print_faults(patterns, page);
}

// Prints what is wrong with an avoider: it is no permutation, or it contains a pattern.
fn print_faults(patterns: &Patterns, page: &[u8; PAGE]) {
    check(is_permutation(avoider(page)), b" wrong: no permutation");
    check(avoids(patterns, avoider(page)), b" wrong: contains");
}

// The avoider of a page.
fn avoider(page: &[u8; PAGE]) -> &[u8] {
    &page[..LENGTH]
}

// The way of at most ten nexts from an avoider on.
fn followed(patterns: &Patterns, page: [u8; PAGE]) -> Way {
    let mut way = Way {
        page,
        nexts: 0,
        goes_on: true,
    };
    for _ in 0..NEXTS {
        if way.goes_on {
            way.step(patterns);
        }
    }
    way
}

impl Way {
    // One next more, if another is given. What is wrong with it is printed.
    fn step(&mut self, patterns: &Patterns) {
        let left = next(patterns, avoider(&self.page), PAGE);
        check(left.is_kept(LENGTH), b" wrong: page of a next");
        self.goes_on = left.is_given();
        if !self.goes_on {
            check(left.is_nothing(), b" wrong: next refused");
            return;
        }
        print_faults(patterns, &left.page);
        check(avoider(&self.page) < avoider(&left.page), b" wrong: order");
        count_if(&mut self.nexts, true);
        self.page = left.page;
    }

    // Whether the last avoider comes after the end of the way; where the way found no other, it is
    // that end.
    fn ends_before(&self, last: &[u8]) -> bool {
        if self.goes_on {
            avoider(&self.page) < last
        } else {
            avoider(&self.page) == last
        }
    }
}

// Prints where the way ends, and the last avoider.
fn of_last(patterns: &Patterns, way: &Way) {
    print::text(b" next");
    print::next_number(way.nexts);
    print_entries(avoider(&way.page));
    let left = last_turned(patterns);
    let last = turned_page(left.page);
    print::either(left.is_given(), b" last", b" wrong: no last");
    print_given(patterns, &last);
    check(way.ends_before(avoider(&last)), b" wrong: before a next");
    let behind = next(patterns, avoider(&last), PAGE);
    check(behind.is_nothing(), b" wrong: not the last");
    check(behind.is_kept(LENGTH), b" wrong: page of the last");
}

// The first avoider of the complements of the patterns.
fn last_turned(patterns: &Patterns) -> Left {
    let left = first(&complements(*patterns), LENGTH, PAGE);
    check(left.is_kept(LENGTH), b" wrong: page of complements");
    left
}

// The complements of the patterns.
fn complements(patterns: Patterns) -> Patterns {
    let mut turned = patterns;
    for p in turned.items.iter_mut() {
        turn(&mut p.digits, p.length);
    }
    turned
}

// The complement of the avoider of a page; the bytes behind it stay.
fn turned_page(page: [u8; PAGE]) -> [u8; PAGE] {
    let mut turned = page;
    turn(&mut turned, LENGTH);
    turned
}

// The complement of the first n entries: n + 1 - x in the place of x.
fn turn(entries: &mut [u8], n: usize) {
    for x in entries.iter_mut().take(n) {
        *x = byte(n.wrapping_add(1)).wrapping_sub(*x);
    }
}

// A small number as a byte.
fn byte(n: usize) -> u8 {
    u8::try_from(n).unwrap_or(0)
}
