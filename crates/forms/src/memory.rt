// Patterns and schemes in memory. A count or a length may be any number: one beyond its array is
// refused as oversize by that field alone.
ghost use Rattle.std.specs.Prelude.{◌≡◌, take};
ghost use Rattle.forms.specs.SchemeMemory.{six_of};
ghost use Rattle.forms.specs.SetMemory.{held};

use word::limits::{COMPONENTS, DIGITS, ENTRIES, GAPS, PARTS, PATTERNS, PREFIX};

// One pattern: its digits, and how many they are.
#[derive(Clone, Copy)]
pub struct Pattern {
    pub digits: [u8; DIGITS],
    pub length: usize,
}

impl Pattern {
    // The digits that memory holds: as many as the length says, and at most DIGITS.
    pub fn as_slice(&self) -> &[u8]
        ensures { result.now ≡ held self.now }
    {
        &self.digits[..self.length.min(DIGITS)]
    }
}

// A set of patterns: so many of the items.
#[derive(Clone, Copy)]
pub struct Patterns {
    pub items: [Pattern; PATTERNS],
    pub count: usize,
}

impl Patterns {
    // The patterns that memory holds: as many as the count says, and at most PATTERNS.
    pub fn as_slice(&self) -> &[Pattern]
        ensures { result.now ≡ take self.now.count self.now.items }
    {
        &self.items[..self.count.min(PATTERNS)]
    }
}

// One gap vector: its components, and how many they are.
#[derive(Clone, Copy)]
pub struct Gap {
    pub parts: [u8; COMPONENTS],
    pub width: usize,
}

// The positions that an entry deletes together: the first PREFIX of them, and how many there are.
// 255 stands for every number beyond. Places that the count does not reach are 0 where a text was
// read.
#[derive(Clone, Copy)]
pub struct Positions {
    pub positions: [u8; PREFIX],
    pub count: u8,
}

impl Positions {
    // The positions that memory holds: as many as the count says, and at most PREFIX.
    pub fn as_slice(&self) -> &[u8]
        ensures { result.now ≡ take self.now.count (six_of self.now) }
    {
        &self.positions[..usize::from(self.count).min(PREFIX)]
    }
}

// What an entry does: it expands, or it deletes positions together (02, order 4).
#[derive(Clone, Copy)]
pub enum Rule {
    Expand,
    Delete(Positions),
}

// An entry of a scheme: its prefix, its gap vectors, its rule. The components of all gap vectors
// stand in one array, COMPONENTS places for each; the widths say how many components each has, and
// 255 stands for every number beyond.
#[derive(Clone, Copy)]
pub struct Entry {
    pub prefix: [u8; PREFIX],
    pub length: usize,
    pub gaps: [u8; PARTS],
    pub widths: [u8; GAPS],
    pub gap_count: usize,
    pub rule: Rule,
}

// A scheme: so many of the entries.
#[derive(Clone, Copy)]
pub struct Scheme {
    pub entries: [Entry; ENTRIES],
    pub count: usize,
}

impl Scheme {
    // The entries that memory holds: as many as the count says, and at most ENTRIES.
    pub fn as_slice(&self) -> &[Entry]
        ensures { result.now ≡ take self.now.count self.now.entries }
    {
        &self.entries[..self.count.min(ENTRIES)]
    }
}
