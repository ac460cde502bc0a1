// A page filled with 7, and what writing to it or to its first bytes leaves there.
use test_support::parts::{lent, prefix, suffix};
use word::refusal::Refused;

// the bytes of a page
pub const PAGE: usize = 4096;

// A page and what writing to its first bytes answered.
#[derive(Clone, Copy)]
pub struct Filled {
    pub page: [u8; PAGE],
    pub answer: Result<usize, Refused>,
}

// A page to whose first n bytes something was written.
pub fn fill<F: Fn(&mut [u8]) -> Result<usize, Refused>>(n: usize, write: F) -> Filled
    requires { F.IsAlwaysCallable write }
{
    let mut page = [7u8; PAGE];
    let answer = write(lent(&mut page, n));
    Filled { page, answer }
}

// Whether the first n bytes of the page are those of the text that are no spaces.
pub fn begins_as(page: &[u8], n: usize, text: &[u8]) -> bool {
    text.iter()
        .filter(|x| **x != b' ')
        .eq(prefix(page, n).iter())
}

// Whether every byte of the page from the index `from` on is 7.
pub fn is_sevens(page: &[u8], from: usize) -> bool {
    suffix(page, from).iter().all(|x| *x == 7)
}
