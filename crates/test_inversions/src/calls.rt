// A call with slices that are lent from two pages of cells, and what the pages hold afterwards.
ghost use Rattle.std.specs.Prelude.{◌≤◌};

use crate::sizes::table_need;
use counting::by_inversions::count_by_inversions;
use forms::memory::{Patterns, Scheme};
use test_listing::cells::{OLD, holds};
use test_support::parts::lent;
use test_support::print;
use word::refusal::Refused;

// the cells of the page for tables: four and a half million bytes, since a program's stack often
// has no more than eight
pub const CELLS: usize = 560000;
// the cells of the page for results: more than the 67 figures of the length 12
pub const RESULTS: usize = 70;

// The answer of a call, the page for results, and whether that for tables is as it is to be.
#[derive(Clone, Copy)]
pub struct Left {
    pub answer: Result<usize, Refused>,
    pub results: [u64; RESULTS],
    pub table: bool,
}

// A call that is lent the first cells of both pages: so many, or all of them where there are fewer.
// The cells of the table that are needed are to hold 0 afterwards, and none behind a refusal.
pub fn run(patterns: &Patterns, scheme: &Scheme, n: usize, cells: usize, results: usize) -> Left {
    let mut table = [OLD; CELLS];
    let mut page = [OLD; RESULTS];
    let answer = count_by_inversions(
        *patterns,
        *scheme,
        n,
        lent(&mut table, cells),
        lent(&mut page, results),
    );
    let zeros = if answer.is_ok() {
        table_need(scheme, n)
    } else {
        0
    };
    Left {
        answer,
        results: page,
        table: holds(&table, zeros),
    }
}

impl Left {
    // The figures that were written: so many as the answer says, and none behind a refusal.
    pub fn figures(&self) -> &[u64] {
        &self.results[..self.count()]
    }

    // How many figures were written.
    fn count(&self) -> usize
        ensures { result ≤ 70 }
    {
        self.answer.unwrap_or(0).min(RESULTS)
    }

    // Whether both pages are as they are to be. What the figures are is not asked.
    pub fn is_in_order(&self) -> bool {
        self.table && self.results[self.count()..].iter().all(|x| *x == OLD)
    }

    // Prints the figures, or the number and the index of the refusal.
    pub fn print_answer(&self) {
        for x in self.figures() {
            print::next_number(*x);
        }
        if let Err(refused) = self.answer {
            print::text(b" ");
            print::refused(u8::from(refused.refusal), refused.index);
        }
    }

    // Prints whether both pages are as they are to be: behind figures that the table is cleared and
    // all else kept, behind a refusal that all is kept.
    pub fn print_pages(&self) {
        if self.is_in_order() {
            print::either(self.answer.is_ok(), b" cleared", b" kept");
        } else {
            print::text(b" changed");
        }
    }
}
