// Calls with a page that is filled with 7, and what they leave.
use forms::memory::Patterns;
use lexicographic::listing::{first_avoider, next_avoider};
use test_support::parts::{lent, prefix, suffix};
use test_support::print;
use word::refusal::Refused;

// the bytes of a page: more than the longest avoider has
pub const PAGE: usize = 24;
// what each of them is before a call
const FILLING: u8 = 7;

// The answer of a call, whether an avoider was given, and the page behind it.
#[derive(Clone, Copy)]
pub struct Left {
    answer: Result<bool, Refused>,
    pub page: [u8; PAGE],
}

// The first avoider of length n, with the first bytes of a page: so many, or all of them.
pub fn first(patterns: &Patterns, n: usize, bytes: usize) -> Left {
    let mut page = [FILLING; PAGE];
    let answer = first_avoider(*patterns, n, lent(&mut page, bytes));
    Left { answer, page }
}

// The next avoider after a permutation, with such a page.
pub fn next(patterns: &Patterns, permutation: &[u8], bytes: usize) -> Left {
    let mut page = [FILLING; PAGE];
    let answer = next_avoider(*patterns, permutation, lent(&mut page, bytes));
    Left { answer, page }
}

impl Left {
    // Whether an avoider was given.
    pub fn is_given(&self) -> bool {
        self.answer.is_ok_and(|given| given)
    }

    // Whether there was nothing to give.
    pub fn is_nothing(&self) -> bool {
        self.answer.is_ok_and(|given| !given)
    }

    // Whether the page is as it was: behind the n entries that were given, and else all of it.
    pub fn is_kept(&self, n: usize) -> bool {
        let from = if self.is_given() { n } else { 0 };
        suffix(&self.page, from).iter().all(|x| *x == FILLING)
    }

    // Whether just these entries were given, and the page behind them is as it was.
    pub fn is_given_as(&self, entries: &[u8]) -> bool {
        self.is_given()
            && self.is_kept(entries.len())
            && prefix(&self.page, entries.len()) == entries
    }

    // Prints an answer: the entries that were given, or a word; and whether the page is as it was.
    pub fn print(&self, n: usize) {
        match self.answer {
            Ok(true) => {
                print::text(b" given");
                print_entries(prefix(&self.page, n));
            }
            Ok(false) => print::text(b" nothing"),
            Err(refused) => {
                print::text(b" ");
                print::refused(u8::from(refused.refusal), refused.index);
            }
        }
        print::either(self.is_kept(n), b" kept", b" changed");
    }
}

// Prints entries with commas between them; of none ε.
pub fn print_entries(entries: &[u8]) {
    print::either(entries.is_empty(), b" \xCE\xB5", b" ");
    print::list(entries);
}
