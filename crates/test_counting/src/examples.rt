// The examples of document 01 on lengths, tables and refusals: a line each, the label, the answer,
// and what became of the page of cells.
use crate::page::{CELLS, Left, run};
use crate::tally::print_answer;
use notation::patterns::read_patterns;
use notation::schemes::read_scheme;
use test_support::print;
use word::limits::LENGTH;

// A set, and a scheme of it.
type Pair = (&'static [u8], &'static [u8]);

// {123}, and `{(ε,∅,∅),(1,∅,∅),(12,{⟨0,0,1⟩},{2}),(21,∅,{1})}`
const CATALAN: Pair = (
    b"{123}",
    b"{(\xCE\xB5,\xE2\x88\x85,\xE2\x88\x85),(1,\xE2\x88\x85,\xE2\x88\x85),(12,{\xE2\x9F\xA80,0,1\xE2\x9F\xA9},{2}),(21,\xE2\x88\x85,{1})}",
);
// the same, but 12 deletes position 1: `{(ε,∅,∅),(1,∅,∅),(12,{⟨0,0,1⟩},{1}),(21,∅,{1})}`
const IRREVERSIBLE: Pair = (
    b"{123}",
    b"{(\xCE\xB5,\xE2\x88\x85,\xE2\x88\x85),(1,\xE2\x88\x85,\xE2\x88\x85),(12,{\xE2\x9F\xA80,0,1\xE2\x9F\xA9},{1}),(21,\xE2\x88\x85,{1})}",
);
// {1423,1432}, and `{(ε,∅,∅),(1,∅,∅),(12,{⟨0,2,0⟩},{2}),(21,∅,{1})}`
const SCHROEDER: Pair = (
    b"{1423,1432}",
    b"{(\xCE\xB5,\xE2\x88\x85,\xE2\x88\x85),(1,\xE2\x88\x85,\xE2\x88\x85),(12,{\xE2\x9F\xA80,2,0\xE2\x9F\xA9},{2}),(21,\xE2\x88\x85,{1})}",
);
// no patterns, `∅`, and all permutations: `{(ε,∅,∅),(1,∅,{1})}`
pub const ALL: Pair = (
    b"\xE2\x88\x85",
    b"{(\xCE\xB5,\xE2\x88\x85,\xE2\x88\x85),(1,\xE2\x88\x85,{1})}",
);
// the same by sets of two: `{(ε,∅,∅),(1,∅,∅),(12,∅,{1,2}),(21,∅,{1,2})}`
const BY_TWO: Pair = (
    b"\xE2\x88\x85",
    b"{(\xCE\xB5,\xE2\x88\x85,\xE2\x88\x85),(1,\xE2\x88\x85,\xE2\x88\x85),(12,\xE2\x88\x85,{1,2}),(21,\xE2\x88\x85,{1,2})}",
);

// The lines of all examples, in the order of document 01.
pub fn lines() {
    lengths();
    tables();
    all_permutations();
    refused_scheme();
    sets();
}

// "n = 20 is counted, 21 refused 2" (01).
fn lengths() {
    line(b"catalan-number-20", CATALAN, LENGTH, CELLS);
    line(b"length-21", CATALAN, LENGTH + 1, CELLS);
}

// "A table of 74 cells serves the scheme below at n = 6; 73 is refused 12" (01). Of a longer table
// the cells behind are untouched.
fn tables() {
    line(b"exactly-74-cells", SCHROEDER, 6, 74);
    line(b"one-cell-too-few", SCHROEDER, 6, 73);
    line(b"more-cells-than-needed", SCHROEDER, 6, CELLS);
}

// 20! is the largest count; at the length 0 the entry for ε alone needs two cells.
fn all_permutations() {
    line(b"twenty-factorial", ALL, LENGTH, CELLS);
    line(b"length-0-with-two-cells", ALL, 0, 2);
    line(b"length-0-with-one-cell", ALL, 0, 1);
}

// "Counting judges its scheme itself" (01).
fn refused_scheme() {
    line(b"refused-scheme", IRREVERSIBLE, 6, CELLS);
}

// "The table then needs (1 + the largest set) times the sum in 01" (02, order 4): three times 17
// cells at n = 4, three times one cell at n = 0.
fn sets() {
    line(b"three-rows-of-17-cells", BY_TWO, 4, 51);
    line(b"three-rows-one-cell-too-few", BY_TWO, 4, 50);
    line(b"three-rows-at-length-20", BY_TWO, LENGTH, CELLS);
    line(b"three-rows-at-length-0", BY_TWO, 0, 3);
    line(b"three-rows-two-cells", BY_TWO, 0, 2);
}

// The line of one count with so many cells.
fn line(label: &[u8], (set, scheme): Pair, n: usize, cells: usize) {
    print::text(label);
    if let (Ok(patterns), Ok(scheme)) = (read_patterns(set), read_scheme(scheme)) {
        print::text(b" ");
        outcome(run(&patterns, &scheme, n, cells));
    }
    print::end();
}

// The answer, and what became of the page.
pub fn outcome(r: Left) {
    print_answer(r.answer);
    if r.kept {
        print::text(b" kept");
    } else {
        print::either(r.cleared, b" cleared", b" changed");
    }
}
