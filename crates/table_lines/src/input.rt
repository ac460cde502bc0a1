// What is kept of an input of three lines, as far as a line may be long; the number in the third
// line.
ghost use Rattle.std.specs.Prelude.{◌≡◌, [], ◌∷◌, take};
ghost use Rattle.table_lines.specs.Lines.{number_in};
ghost use Rattle.table_lines.specs.Kept.{memory_of, kept_of, is_complete, as_number};
ghost use Rattle.table_lines.specs.KeptWalk.{kept_on};

use word::limits::{PATTERN_TEXT, SCHEME_TEXT};

// One byte more than a set's text may have.
pub const SET: usize = PATTERN_TEXT + 1;

// One byte more than a scheme's text may have.
pub const SCHEME: usize = SCHEME_TEXT + 1;

// One byte more than the number in the third line may have: "one or two digits" (01).
pub const LAST: usize = 3;

// The lines of an input.
const LINES: usize = 3;

// How many bytes of the first two lines were kept, in buffers of the caller; the first bytes of the
// third, with zeros behind them, and how many they are; the number of line ends, up to three;
// whether a byte came after the third.
#[derive(Clone, Copy)]
pub struct Lines {
    pub set_length: usize,
    pub scheme_length: usize,
    pub last: [u8; LAST],
    pub last_length: usize,
    pub ends: usize,
    pub fourth: bool,
}

// What is kept of no bytes, beside two buffers of zeros.
pub fn nothing() -> Lines
    ensures { result ≡ (kept_of []).lines }
{
    Lines {
        set_length: 0,
        scheme_length: 0,
        last: [0u8; LAST],
        last_length: 0,
        ends: 0,
        fourth: false,
    }
}

// What is kept with a further chunk: bytes of the first two lines go into the buffers. A line's
// surplus is dropped.
pub fn keep(lines: Lines, set: &mut [u8], scheme: &mut [u8], chunk: &[u8]) -> Lines
    ensures { memory_of result set.new scheme.new ≡ kept_on
        (memory_of lines set.old scheme.old) chunk.now }
{
    let set_room = set.len().min(SET);
    let scheme_room = scheme.len().min(SCHEME);
    let mut kept = lines;
    for i in 0..chunk.len() {
        let b = chunk[i];
        let ends = kept.ends;
        let set_at = kept.set_length;
        let scheme_at = kept.scheme_length;
        let last_at = kept.last_length;
        if LINES <= ends {
            kept.fourth = true;
        } else if b == b'\n' {
            kept.ends = ends + 1;
        } else if ends == 0 {
            if set_at < set_room {
                set[set_at] = b;
                kept.set_length = set_at + 1;
            }
        } else if ends == 1 {
            if scheme_at < scheme_room {
                scheme[scheme_at] = b;
                kept.scheme_length = scheme_at + 1;
            }
        } else if last_at < LAST {
            kept.last[last_at] = b;
            kept.last_length = last_at + 1;
        }
    }
    kept
}

// Whether the three lines are there and no fourth.
pub fn complete(lines: Lines) -> bool
    ensures { result ≡ is_complete lines }
{
    if lines.last_length == 0 {
        return false;
    }
    !lines.fourth
}

// The number that one byte spells.
fn one_digit(a: u8) -> Option<usize>
    ensures { result ≡ as_number (number_in (a ∷ [])) }
{
    if a < b'0' {
        return None;
    }
    if b'9' < a {
        return None;
    }
    Some(usize::from(a - b'0'))
}

// The number that two bytes spell: "no leading zero" (01).
fn two_digits(a: u8, b: u8) -> Option<usize>
    ensures { result ≡ as_number (number_in (a ∷ b ∷ [])) }
{
    if a <= b'0' {
        return None;
    }
    if b'9' < a {
        return None;
    }
    if b < b'0' {
        return None;
    }
    if b'9' < b {
        return None;
    }
    Some(usize::from(a - b'0') * 10 + usize::from(b - b'0'))
}

// The number that a line spells.
pub fn number_in(text: &[u8]) -> Option<usize>
    ensures { result ≡ as_number (number_in text.now) }
{
    if text.len() == 1 {
        return one_digit(text[0]);
    }
    if text.len() == 2 {
        return two_digits(text[0], text[1]);
    }
    None
}

// The number that the third line spells.
pub fn last_number(lines: Lines) -> Option<usize>
    ensures { result ≡ as_number (number_in (take lines.last_length lines.last)) }
{
    let last = lines.last;
    let n = lines.last_length.min(LAST);
    number_in(&last[..n])
}
