// The marks of the notation as bytes.

// ε
pub const EPSILON: [u8; 2] = *b"\xCE\xB5";
// ∅
pub const EMPTY: [u8; 3] = *b"\xE2\x88\x85";
// ⟨
pub const LEFT: [u8; 3] = *b"\xE2\x9F\xA8";
// ⟩
pub const RIGHT: [u8; 3] = *b"\xE2\x9F\xA9";
