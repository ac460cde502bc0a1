// The check of a witness: what is wrong with it, if anything is.
use crate::basis::longest;
use crate::copies::earliest_copy;
use crate::least::{is_least, is_listed};
use crate::lost::Deletion;
use crate::rows::{ROW, Row};
use crate::texts::{entry, opens_entry};

// What is wrong with a witness. Of several the first one here is found.
#[derive(Clone, Copy)]
pub enum Wrong {
    // the first half of the page is no length, permutation of that length, and zeros
    Form,
    // the permutation does not begin with the prefix of the entry
    Prefix,
    // its spacing is not compared
    Spacing,
    // without the deleted positions it contains a pattern
    Deletion,
    // the second half is not the first copy of the earliest pattern that has one, or there is none
    Copy,
    // another permutation that the entry loses comes before it
    Least,
}

// What is found of a page that came with refusal 11 at the entry with this index. Beyond the
// lengths that are listed, all is right but that it may not be the least.
pub fn found(set: &[u8], scheme: &[u8], index: usize, page: &[u8]) -> Result<(), Wrong> {
    let d = Deletion {
        set,
        m: longest(set),
        entry: entry(scheme.split(opens_entry).skip(1).nth(index).unwrap_or(&[])),
    };
    let w = Row::at(page, 0);
    so(is_permutation(&w), Wrong::Form)?;
    so(d.begins(&w), Wrong::Prefix)?;
    so(d.compares(&w), Wrong::Spacing)?;
    so(d.avoids_shorter(&w), Wrong::Deletion)?;
    so(
        earliest_copy(set, &w) == Some(Row::at(page, ROW)),
        Wrong::Copy,
    )?;
    so(!is_listed(&w) || is_least(&d, &w), Wrong::Least)
}

// What is found where something is to be so.
fn so(right: bool, wrong: Wrong) -> Result<(), Wrong> {
    if right { Ok(()) } else { Err(wrong) }
}

// Whether a page has a permutation that is compared with all that come before it.
pub fn is_compared_with_all(page: &[u8]) -> bool {
    is_listed(&Row::at(page, 0))
}

// Whether a row is a length, a permutation of that length, and zeros: each number up to the length
// is one of its numbers.
fn is_permutation(w: &Row) -> bool {
    let n = w.size();
    *w == w.first(n) && (1..=n).all(|x| w.numbers().contains(&(x as u8)))
}
