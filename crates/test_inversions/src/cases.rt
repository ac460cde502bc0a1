// The line of one call: its label, the figures or the refusal, and what became of both pages.
use crate::calls::{Left, run};
use forms::memory::{Entry, Pattern, Patterns, Rule, Scheme};
use notation::patterns::read_patterns;
use notation::schemes::read_scheme;
use test_support::parts::{before, behind};
use test_support::print;
use test_support::spelt::decimal;
use word::limits::{DIGITS, ENTRIES, GAPS, PARTS, PATTERNS, PREFIX};

// Prints the line of a call: a label, a length, the cells of both slices, and a set; a scheme.
pub fn line(words: &[u8], text: &[u8]) {
    let length = behind(words, b' ');
    let cells = behind(length, b' ');
    let results = behind(cells, b' ');
    let set = behind(results, b' ');
    // a text that is refused stands for a list of none
    let patterns = read_patterns(set).unwrap_or(no_patterns());
    let scheme = read_scheme(text).unwrap_or(no_entries());
    print::text(before(words, b' '));
    end_line(&run(
        &patterns,
        &scheme,
        number(length),
        number(cells),
        number(results),
    ));
}

// A set of no patterns.
fn no_patterns() -> Patterns {
    Patterns {
        items: [Pattern {
            digits: [0u8; DIGITS],
            length: 0,
        }; PATTERNS],
        count: 0,
    }
}

// A scheme of no entries.
fn no_entries() -> Scheme {
    Scheme {
        entries: [Entry {
            prefix: [0u8; PREFIX],
            length: 0,
            gaps: [0u8; PARTS],
            widths: [0u8; GAPS],
            gap_count: 0,
            rule: Rule::Expand,
        }; ENTRIES],
        count: 0,
    }
}

// The number that the first word spells.
fn number(words: &[u8]) -> usize {
    decimal(before(words, b' ')) as usize
}

// Prints what a call left, and ends the line.
pub fn end_line(left: &Left) {
    left.print_answer();
    left.print_pages();
    print::end();
}
