// Texts with one byte damaged.
use test_automaton::flat::ROOM;
use test_support::parts::{byte_at, prefix, suffix};

// the bytes that another byte is changed to: a space, digits, marks, bytes of marks, and a byte
// that the notation does not have
pub const CHANGES: [u8; 17] = *b" 012{},()\xCE\xE2\x88\x85\x9F\xA8\xA9\xFF";

// What a text is to spell.
#[derive(Clone, Copy)]
pub enum Kind {
    Patterns,
    Scheme,
}

// How a text is damaged at a byte.
#[derive(Clone, Copy)]
pub enum Damage {
    // the byte is dropped
    Dropped,
    // the byte is doubled
    Doubled,
    // the text is cut there
    Cut,
    // the byte is changed to this one
    Changed(u8),
}

// The first `length` bytes of an array.
#[derive(Clone, Copy)]
pub struct Text {
    bytes: [u8; ROOM],
    length: usize,
}

impl Text {
    // The bytes of the text.
    pub fn as_slice(&self) -> &[u8] {
        prefix(&self.bytes, self.length)
    }

    // The bytes behind the text, as far as there is room.
    fn push(&mut self, bytes: &[u8]) {
        for x in bytes {
            if let Some(place) = self.bytes.get_mut(self.length) {
                *place = *x;
                self.length = self.length.saturating_add(1);
            }
        }
    }
}

// The text with its byte at the index `at` damaged.
pub fn damaged(text: &[u8], at: usize, damage: Damage) -> Text {
    let x = byte_at(text, at);
    let mut all = Text {
        bytes: [0; ROOM],
        length: 0,
    };
    all.push(prefix(text, at));
    match damage {
        Damage::Dropped => {}
        Damage::Doubled => all.push(&[x, x]),
        Damage::Cut => return all,
        Damage::Changed(y) => all.push(&[y]),
    }
    all.push(suffix(text, at.saturating_add(1)));
    all
}
