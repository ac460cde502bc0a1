// What judging leaves in pages of several lengths, each filled with 7 before.
use crate::line::losing;
use judge_texts::judge_texts;
use test_support::parts::{lent, prefix, suffix};
use word::refusal::{Refusal, Refused};

// the bytes of a page that are needed, and of one that is longer
const NEEDED: usize = 32;

pub const LONG: usize = 40;

// what pages are filled with
const FILLING: u8 = 7;

// Whether a verdict on two texts left the longer page as it has to, and pages of other lengths are
// treated as they have to be.
pub fn are_right(set: &[u8], scheme: &[u8], verdict: Result<usize, Refused>, page: &[u8]) -> bool {
    is_kept(verdict, page)
        && is_same_with_needed(set, scheme, verdict, page)
        && are_refused(set, scheme)
}

// Whether the bytes behind those that are needed are as they were, and all of them without
// refusal 11.
fn is_kept(verdict: Result<usize, Refused>, page: &[u8]) -> bool {
    let needed = if losing(verdict).is_some() { NEEDED } else { 0 };
    is_filled(suffix(page, needed))
}

// Whether a page of just the bytes that are needed gives the same verdict, and the same bytes.
fn is_same_with_needed(
    set: &[u8],
    scheme: &[u8],
    verdict: Result<usize, Refused>,
    page: &[u8],
) -> bool {
    let mut needed = [FILLING; NEEDED];
    judge_texts(set, scheme, &mut needed) == verdict && &needed[..] == prefix(page, NEEDED)
}

// Whether pages of 0, 1 and 31 bytes are refused, whatever the texts are.
fn are_refused(set: &[u8], scheme: &[u8]) -> bool {
    [0, 1, NEEDED - 1]
        .iter()
        .all(|bytes| is_refused(set, scheme, *bytes))
}

// Whether a page of so many bytes is refused with 13 and 0 and stays as it is.
fn is_refused(set: &[u8], scheme: &[u8], bytes: usize) -> bool {
    let mut page = [FILLING; LONG];
    let verdict = judge_texts(set, scheme, lent(&mut page, bytes));
    verdict == Err(Refusal::ShortPage.at(0)) && is_filled(&page)
}

// Whether all bytes are those that pages are filled with.
fn is_filled(page: &[u8]) -> bool {
    page.iter().all(|x| *x == FILLING)
}
