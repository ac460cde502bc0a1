// Schemes in memory with sets of positions that no text gives, counted and written: a line each,
// the label, the answer, what became of the page of cells, and what writing answers.
use crate::examples::{ALL, outcome};
use crate::page::{CELLS, run};
use forms::memory::{Positions, Rule, Scheme};
use notation::patterns::read_patterns;
use notation::schemes::{read_scheme, write_scheme};
use test_support::print;

// the bytes of a page to write on
const PAGE: usize = 64;

// The lines: numbers of positions of 0, 7 and 255, and single positions 0 and 255. 255 stands for
// every number beyond.
pub fn lines() {
    line(b"set-of-none", set(0, 1));
    line(b"set-of-seven", set(7, 1));
    line(b"set-of-255", set(255, 1));
    line(b"position-0", set(1, 0));
    line(b"position-255", set(1, 255));
}

// A set of so many positions, the first of them given, the others from 2 on.
fn set(count: u8, first: u8) -> Positions {
    Positions {
        positions: [first, 2, 3, 4, 5, 6],
        count,
    }
}

// The line of the scheme of all permutations with this set in its second entry.
fn line(label: &[u8], gone: Positions) {
    print::text(label);
    if let (Ok(patterns), Ok(mut scheme)) = (read_patterns(ALL.0), read_scheme(ALL.1)) {
        scheme.entries[1].rule = Rule::Delete(gone);
        print::text(b" ");
        outcome(run(&patterns, &scheme, 4, CELLS));
        print::text(b" written ");
        written(scheme);
    }
    print::end();
}

// What writing the scheme answers.
fn written(s: Scheme) {
    let mut page = [0u8; PAGE];
    match write_scheme(s, &mut page) {
        Ok(n) => print::number(n as u64),
        Err(refused) => print::refused(u8::from(refused.refusal), refused.index),
    }
}
