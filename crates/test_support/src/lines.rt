// The lines of standard input.
ghost use Rattle.std.specs.Prelude.{◌≤◌, length};
ghost use Rattle.std.specs.Iterator.{at_most};

use crate::parts::{before, find, suffix};

// The descriptor of standard input.
const STANDARD_INPUT: i32 = 0;

// Reads standard input, as far as the buffer holds it; how many bytes there are.
pub fn input(buffer: &mut [u8]) -> usize {
    io::read_full(STANDARD_INPUT, buffer)
}

// The lines of a text, each without its end. An end that nothing follows begins no line.
#[derive(Drop)]
pub struct Lines<'a>(&'a [u8]);

pub fn lines_of(text: &[u8]) -> Lines<'_> {
    Lines(text)
}

impl<'a> Iterator for Lines<'a> {
    type Item = &'a [u8];

    // what is left is never longer than what was
    ghost next_gives = { λ s r t. length t.0.now ≤ length s.0.now };

    ghost remaining = { λ s. at_most (length s.0.now) };

    fn next(&mut self) -> Option<&'a [u8]> {
        let text = self.0;
        if text.is_empty() {
            return None;
        }
        self.0 = suffix(text, find(text, 0, b'\n').saturating_add(1));
        Some(before(text, b'\n'))
    }
}

// The lines of a text, two at a time. A line that none follows has an empty one for its second.
#[derive(Drop)]
pub struct Pairs<'a>(Lines<'a>);

pub fn pairs_of(text: &[u8]) -> Pairs<'_> {
    Pairs(lines_of(text))
}

impl<'a> Iterator for Pairs<'a> {
    type Item = (&'a [u8], &'a [u8]);

    ghost remaining = { λ s. at_most (length s.0.0.now) };

    fn next(&mut self) -> Option<(&'a [u8], &'a [u8])> {
        let first = self.0.next()?;
        Some((first, self.0.next().unwrap_or(&[])))
    }
}
