// The ceilings of document 01, and the sizes that follow from them; specs/Ceilings.antt has the
// same names for statements.

// digits of a pattern
pub const DIGITS: usize = 8;
// patterns of a set
pub const PATTERNS: usize = 24;
// entries of a permutation in which a pattern is sought
pub const WORD: usize = 20;

// entries of a scheme
pub const ENTRIES: usize = 128;
// length of a prefix
pub const PREFIX: usize = 6;
// components of a gap vector: one more than its prefix has entries
pub const COMPONENTS: usize = PREFIX + 1;
// gap vectors of an entry
pub const GAPS: usize = 8;
// components of the gap vectors of an entry, one vector after the other
pub const PARTS: usize = GAPS * COMPONENTS;
// total of a gap vector
pub const TOTAL: usize = 8;

// the largest length that is counted
pub const LENGTH: usize = 20;
// counts for the lengths from 0 on
pub const COUNTS: usize = LENGTH + 1;
// the largest length that is evaluated plainly
pub const PLAIN_LENGTH: usize = 9;
// the largest length that is counted by inversions
pub const REFINED: usize = 12;
// the figures of that length, for 0 to 12 * 11 / 2 inversions
pub const FIGURES: usize = 67;
// columns of binomials C(z, 0) .. C(z, 7): a child's prefix has up to 7 entries
pub const COLUMNS: usize = PREFIX + 2;
// places of the children of an entry, or of its target, and one that stays 0
pub const LINKS: usize = PREFIX + 2;

// bytes of a pattern text
pub const PATTERN_TEXT: usize = 1024;
// bytes of a scheme text
pub const SCHEME_TEXT: usize = 32768;
// cells of the table program's table
pub const CELLS: usize = 4096;

// bytes of a witness: its permutation and its copy, each in one half
pub const PAGE: usize = 32;

pub const HALF: usize = 16;
