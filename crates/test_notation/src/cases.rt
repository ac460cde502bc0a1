// The lines of standard input: what to do with a text, `read` or `damage`; what it is to spell,
// `patterns` or `scheme`; a label; and the text, to the end of the line. A space stands behind each
// of the three words.
use crate::texts::Kind;
use crate::{damage, line};
use test_support::lines::{input, lines_of};
use test_support::parts::{before, behind, byte_at, prefix};

// A line for each line of the input.
pub fn lines() {
    let mut buffer = io::large_buffer();
    let n = input(&mut buffer);
    for case in lines_of(prefix(&buffer, n)) {
        one(case);
    }
}

// The line of one case.
fn one(case: &[u8]) {
    let kind = behind(case, b' ');
    let named = behind(kind, b' ');
    let label = before(named, b' ');
    let text = behind(named, b' ');
    if byte_at(case, 0) == b'd' {
        damage::line(kind_of(byte_at(kind, 0)), label, text);
    } else {
        line::of(kind_of(byte_at(kind, 0)), label, text);
    }
}

// What a text is to spell, by the first byte of the word for it.
fn kind_of(x: u8) -> Kind {
    if x == b'p' {
        Kind::Patterns
    } else {
        Kind::Scheme
    }
}
