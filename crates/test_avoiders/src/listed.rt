// The line of a set: its text, for the lengths 0 to 7 how many avoiders following next from the
// first gives, and whether a scheme counts the same.
use crate::walk::given;
use counting::plainly::count_plainly;
use forms::memory::{Patterns, Scheme};
use notation::patterns::read_patterns;
use notation::schemes::read_scheme;
use test_support::print;
use word::refusal::Refused;

// how many lengths there are
const LENGTHS: usize = 8;

// Prints the line of a set and a scheme, of which there is none in an empty text.
pub fn line(set: &[u8], scheme: &[u8]) {
    print::text(set);
    let Ok(patterns) = read_patterns(set) else {
        print::text(b" unread\n");
        return;
    };
    against(&patterns, scheme, &numbers(&patterns));
    print::end();
}

// Prints how many avoiders of each length are given.
fn numbers(patterns: &Patterns) -> [u64; LENGTHS] {
    let mut all = [0u64; LENGTHS];
    for (n, x) in all.iter_mut().enumerate() {
        *x = given(patterns, n);
        print::next_number(*x);
    }
    all
}

// Prints whether the scheme counts these numbers.
fn against(patterns: &Patterns, text: &[u8], numbers: &[u64; LENGTHS]) {
    if text.is_empty() {
        return;
    }
    let Ok(scheme) = read_scheme(text) else {
        print::text(b" unread scheme");
        return;
    };
    print::either(counts(patterns, &scheme, numbers), b" by scheme", b"");
}

// Whether the scheme counts these numbers. The first count that differs is printed.
fn counts(patterns: &Patterns, scheme: &Scheme, numbers: &[u64; LENGTHS]) -> bool {
    for (n, x) in numbers.iter().enumerate() {
        let answer = count_plainly(*patterns, *scheme, n);
        if !answer.is_ok_and(|c| c == *x) {
            print_other(n, answer);
            return false;
        }
    }
    true
}

// Prints a count for the length n that is another number, or a refusal.
fn print_other(n: usize, answer: Result<u64, Refused>) {
    print::text(b" by scheme differs at");
    print::next_number(n as u64);
    print::text(b": ");
    match answer {
        Ok(c) => print::number(c),
        Err(refused) => print::refused(u8::from(refused.refusal), refused.index),
    }
}
