// Sets and schemes in memory that no text gives, each with whole pages and with slices of no cells
// for the length 13: a line each, the label, the refusal, and what became of both pages.
use crate::calls::{CELLS, RESULTS, run};
use crate::cases::end_line;
use crate::sizes::LARGEST;
use forms::memory::{Patterns, Positions, Rule, Scheme};
use notation::patterns::read_patterns;
use notation::schemes::read_scheme;
use test_support::print;
use word::limits::PREFIX;

// the scheme of all permutations: `{(ε,∅,∅),(1,∅,{1})}`
const ALL: [u8; 26] = *b"{(\xCE\xB5,\xE2\x88\x85,\xE2\x88\x85),(1,\xE2\x88\x85,{1})}";

// The lines: a pattern that is no permutation, a scheme of no entries, and a set of no positions.
pub fn lines() {
    if let (Ok(patterns), Ok(scheme)) = (read_patterns(b"{12}"), read_scheme(&ALL)) {
        let mut changed = patterns;
        changed.items[0].digits[0] = 2;
        both_ways(b"no-permutation", &changed, &scheme);
        both_ways(b"rootless", &patterns, &Scheme { count: 0, ..scheme });
        let mut emptied = scheme;
        emptied.entries[1].rule = Rule::Delete(NONE);
        both_ways(b"no-position", &patterns, &emptied);
    }
}

// The lines of a set and a scheme. They are refused before the length and the slices are.
fn both_ways(label: &[u8], patterns: &Patterns, scheme: &Scheme) {
    print::text(label);
    end_line(&run(patterns, scheme, 4, CELLS, RESULTS));
    print::text(label);
    print::text(b"-before-all-else");
    end_line(&run(patterns, scheme, LARGEST + 1, 0, 0));
}

// no positions
const NONE: Positions = Positions {
    positions: [0; PREFIX],
    count: 0,
};
