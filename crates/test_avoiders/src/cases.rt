// The line of one call: its label, the answer, and whether the page is as it was. The patterns are
// those that a text spells, with no test of them, so that the call has to refuse them itself.
use crate::calls::{Left, first, next};
use forms::memory::Patterns;
use test_support::parts::{before, behind, byte_at, prefix};
use test_support::print;
use test_support::spelt::{decimal, entries};
use text_patterns::pattern_reader::{load_patterns, no_patterns};

// the first of the bytes that ε is
const EPSILON: u8 = 0xCE;

// The line of a call for the first avoider: a label, patterns, a length, and the bytes of the page.
pub fn first_line(words: &[u8]) {
    let given = behind(words, b' ');
    let numbers = behind(given, b' ');
    let n = decimal(before(numbers, b' ')) as usize;
    let bytes = decimal(behind(numbers, b' ')) as usize;
    line(words, n, |patterns| first(patterns, n, bytes));
}

// The line of a call for the next avoider: a label, patterns, entries, and the bytes of the page.
pub fn next_line(words: &[u8]) {
    let given = behind(words, b' ');
    let rest = behind(given, b' ');
    let word = before(rest, b' ');
    let n = length(word);
    let all = entries(word);
    let bytes = decimal(behind(rest, b' ')) as usize;
    line(words, n, |patterns| next(patterns, prefix(&all, n), bytes));
}

// The line of a call with the patterns that the second word spells: the label and what is left.
fn line<F: Fn(&Patterns) -> Left>(words: &[u8], n: usize, call: F)
    requires { F.IsAlwaysCallable call }
{
    print::text(before(words, b' '));
    // a text that spells no set stands for a set of none
    let patterns = load_patterns(before(behind(words, b' '), b' ')).unwrap_or(no_patterns());
    call(&patterns).print(n);
    print::end();
}

// The number of entries that a word spells; ε has none.
fn length(word: &[u8]) -> usize {
    if byte_at(word, 0) == EPSILON {
        return 0;
    }
    word.len()
}
