// What the texts of a set and of a scheme say, found by marks alone. The texts are well-formed. By
// the ceilings of document 01 a component is at most 8 and a position at most 6, so that each
// number of an entry is one digit.
use crate::rows::Row;
use test_support::parts::before;

// the last of the bytes that ⟨ is, and the first of those that ⟩ is; no other mark ends with that,
// and behind ⟨ no other mark comes before ⟩
const OPEN: u8 = 0xA8;

const CLOSE: u8 = 0xE2;

// the last of the bytes that ∅ is; no other mark has it
const EMPTY: u8 = 0x85;

// Whether a byte stands between two patterns of a set.
pub fn ends_pattern(x: &u8) -> bool {
    *x == b','
}

// Whether a gap vector of an entry begins behind a byte.
pub fn opens_vector(x: &u8) -> bool {
    *x == OPEN
}

// The gap vector that a text begins with.
pub fn vector(text: &[u8]) -> Row {
    digits(before(text, CLOSE))
}

// Whether an entry of a scheme begins behind a byte.
pub fn opens_entry(x: &u8) -> bool {
    *x == b'('
}

// The entry that a text begins with: what stands before its closing parenthesis.
pub fn entry(text: &[u8]) -> &[u8] {
    before(text, b')')
}

// The prefix of an entry.
pub fn prefix(entry: &[u8]) -> Row {
    digits(before(entry, b','))
}

// The positions that an entry deletes: the digits behind its last opening brace. One that expands
// has ∅ behind all its braces, and an empty row.
pub fn deleted(entry: &[u8]) -> Row {
    if last_place(entry, b'}') < last_place(entry, EMPTY) {
        return Row::new();
    }
    digits(entry.rsplit(|x| *x == b'{').next().unwrap_or(entry))
}

// Where the last byte x of a text stands.
fn last_place(text: &[u8], x: u8) -> Option<usize> {
    text.iter().rposition(|y| *y == x)
}

// The digits of a text as a row, other bytes left out.
pub fn digits(text: &[u8]) -> Row {
    let mut row = Row::new();
    for x in text.iter().filter(|x| x.is_ascii_digit()) {
        row.push(x.wrapping_sub(b'0'));
    }
    row
}
