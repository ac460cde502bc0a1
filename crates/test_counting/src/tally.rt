// The line of a pair of texts: the counts for the lengths 0 to 10, whether listing finds the same
// to the length 8, whether it finds the counts of the plain evaluation to the length 7, and whether
// the table was cleared.
use crate::avoiders::avoiders;
use crate::page::{Left, run};
use counting::plainly::count_plainly;
use forms::memory::{Patterns, Scheme};
use notation::patterns::read_patterns;
use notation::schemes::read_scheme;
use test_listing::need::need;
use test_listing::permutations::LONGEST;
use test_support::print;
use word::refusal::Refused;

// the largest length that is counted
const LENGTH: usize = 10;
// the largest length that is evaluated plainly too
const PLAIN: usize = 7;

// What was found of all lengths so far: each count is the listed one, and so is each one of the
// plain evaluation; each table is as it is to be.
#[derive(Clone, Copy)]
struct Found {
    listed: bool,
    plain: bool,
    cleared: bool,
}

// Reads the texts and prints the line.
pub fn line(set: &[u8], text: &[u8]) {
    let (Ok(patterns), Ok(scheme)) = (read_patterns(set), read_scheme(text)) else {
        print::text(b"unread\n");
        return;
    };
    let mut found = Found {
        listed: true,
        plain: true,
        cleared: true,
    };
    for n in 0..=LENGTH {
        found.add(&patterns, &scheme, n);
    }
    found.print();
}

impl Found {
    // Prints the count for the length n, by a table of exactly the cells that are needed, behind a
    // space if it is not the first, and adds what is found of it.
    fn add(&mut self, patterns: &Patterns, scheme: &Scheme, n: usize) {
        let r = run(patterns, scheme, n, need(scheme, n));
        if 0 < n {
            print::text(b" ");
        }
        print_answer(r.answer);
        self.listed = self.listed && is_listed(r.answer, patterns, n);
        self.plain = self.plain && is_plain(patterns, scheme, n);
        self.cleared = self.cleared && is_in_order(r);
    }

    // Ends the line with what was found of all lengths.
    fn print(&self) {
        print::either(self.listed, b" listed", b" differs");
        print::either(self.plain, b" plain", b" plain-differs");
        print::either(self.cleared, b" cleared\n", b" not-cleared\n");
    }
}

// Prints the count, or the number and the index of the refusal.
pub fn print_answer(answer: Result<u64, Refused>) {
    match answer {
        Ok(c) => print::number(c),
        Err(refused) => print::refused(u8::from(refused.refusal), refused.index),
    }
}

// Whether a count is the number of permutations that the listing finds. Lengths above the listed
// ones are not compared, and a refusal, which the line shows, is no count.
fn is_listed(answer: Result<u64, Refused>, patterns: &Patterns, n: usize) -> bool {
    match answer {
        Ok(c) => LONGEST < n || c == avoiders(patterns, n),
        Err(_) => true,
    }
}

// Whether the plain evaluation gives the number of permutations that the listing finds. A refusal
// is no such number. Lengths above 7 are not evaluated.
fn is_plain(patterns: &Patterns, scheme: &Scheme, n: usize) -> bool {
    if PLAIN < n {
        return true;
    }
    match count_plainly(*patterns, *scheme, n) {
        Ok(c) => c == avoiders(patterns, n),
        Err(_) => false,
    }
}

// Whether the table is as it is to be: cleared after a count, kept after a refusal.
fn is_in_order(r: Left) -> bool {
    if r.answer.is_ok() { r.cleared } else { r.kept }
}
