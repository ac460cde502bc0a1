// A count with a table that is lent from a page of cells, and what the page holds afterwards.
use counting::by_table::count;
use forms::memory::{Patterns, Scheme};
use test_listing::cells::{OLD, holds};
use test_listing::need::need;
use test_support::parts::lent;
use word::refusal::Refused;

// the cells of the page
pub const CELLS: usize = 32768;

// The answer of a count, whether the page holds what it held before, and whether the cells that are
// needed hold 0 and all others what they held.
#[derive(Clone, Copy)]
pub struct Left {
    pub answer: Result<u64, Refused>,
    pub kept: bool,
    pub cleared: bool,
}

// A count that is lent the first cells of a page: so many, or all of them where there are fewer.
pub fn run(patterns: &Patterns, scheme: &Scheme, n: usize, cells: usize) -> Left {
    let mut page = [OLD; CELLS];
    let answer = count(*patterns, *scheme, n, lent(&mut page, cells));
    Left {
        answer,
        kept: holds(&page, 0),
        cleared: holds(&page, need(scheme, n)),
    }
}
