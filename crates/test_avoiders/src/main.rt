// A test program: the first avoider of a length, and the next after an avoider. Each line of
// standard input is a test and begins with a word for its kind; each gives a line.
//
//     set PATTERNS SCHEME            lengths 0 to 7 against the list by brute force; the scheme is
//                                    an accepted one, or missing
//     twenty PATTERNS                the first, ten nexts and the last of length 20
//     first LABEL PATTERNS n m       a call for the first of length n, with a page of m bytes
//     next LABEL PATTERNS ENTRIES m  a call for the next, with such a page
#![tactic(auto)]

mod calls;
mod cases;
mod listed;
mod twenty;
mod walk;

use test_support::lines::{input, lines_of};
use test_support::parts::{before, behind, byte_at, prefix};

fn main() {
    let mut buffer = io::large_buffer();
    let n = input(&mut buffer);
    for line in lines_of(prefix(&buffer, n)) {
        test(line);
    }
}

// The line of one test, by the first byte of the word for its kind.
fn test(line: &[u8]) {
    let words = behind(line, b' ');
    match byte_at(line, 0) {
        b's' => listed::line(before(words, b' '), behind(words, b' ')),
        b't' => twenty::line(words),
        b'f' => cases::first_line(words),
        b'n' => cases::next_line(words),
        _ => test_support::print::text(b"no test\n"),
    }
}
