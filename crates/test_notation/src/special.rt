// Texts that a line of the input does not hold: with other bytes than its characters have, cut
// inside a mark, or of the greatest length.
use crate::line::of;
use crate::texts::Kind;
use test_support::parts::prefix;
use test_support::print;
use word::limits::{PATTERN_TEXT, SCHEME_TEXT};

// the bytes of the short scheme
const BYTES: usize = 32;
// the short scheme: {(ε,{⟨0⟩},∅),(1,∅,{1})}
const SHORT: [u8; BYTES] =
    *b"{(\xCE\xB5,{\xE2\x9F\xA80\xE2\x9F\xA9},\xE2\x88\x85),(1,\xE2\x88\x85,{1})}";
// one byte more than a pattern text may have
const BEYOND_SET: usize = PATTERN_TEXT + 1;
// one byte more than a scheme text may have
const BEYOND_SCHEME: usize = SCHEME_TEXT + 1;

// A line for each text.
pub fn lines() {
    other_bytes();
    cut_marks();
    cuts();
    long_patterns();
    long_schemes();
}

// Bytes that are no characters, or end a line.
fn other_bytes() {
    of(Kind::Patterns, b"patterns-line-end-behind", b"{12}\n");
    of(Kind::Patterns, b"patterns-byte-0-behind", b"{12}\x00");
    of(Kind::Patterns, b"patterns-byte-255-within", b"{1\xFF2}");
    of(
        Kind::Scheme,
        b"scheme-empty-mark-line-end-behind",
        b"\xE2\x88\x85\n",
    );
    of(
        Kind::Scheme,
        b"scheme-empty-mark-byte-0-behind",
        b"\xE2\x88\x85\x00",
    );
}

// Texts that end inside a mark. The bytes that the mark lacks stand behind the end.
fn cut_marks() {
    let mark = *b"\xE2\x88\x85";
    of(
        Kind::Patterns,
        b"patterns-empty-mark-after-1-byte",
        prefix(&mark, 1),
    );
    of(
        Kind::Patterns,
        b"patterns-empty-mark-after-2-bytes",
        prefix(&mark, 2),
    );
    of(
        Kind::Patterns,
        b"patterns-epsilon-after-1-byte",
        prefix(b"{\xCE\xB5}", 2),
    );
    of(
        Kind::Scheme,
        b"scheme-empty-mark-after-1-byte",
        prefix(&mark, 1),
    );
    of(
        Kind::Scheme,
        b"scheme-empty-mark-after-2-bytes",
        prefix(&mark, 2),
    );
}

// The short scheme cut after each number of bytes: ε after 3, ⟨ after 7 and 8, ⟩ after 11 and 12, ∅
// after 16 and 17. The rest stands behind the end.
fn cuts() {
    for n in 0..=BYTES {
        print::text(b"scheme-cut-after");
        print::next_number(n as u64);
        of(Kind::Scheme, b"", prefix(&SHORT, n));
    }
}

// The mark ∅ among spaces, and spaces alone.
fn long_patterns() {
    let mut page = [b' '; BEYOND_SET];
    of(
        Kind::Patterns,
        b"patterns-1024-spaces",
        prefix(&page, PATTERN_TEXT),
    );
    of(Kind::Patterns, b"patterns-1025-spaces", &page);
    page[500] = 0xE2;
    page[501] = 0x88;
    page[502] = 0x85;
    of(
        Kind::Patterns,
        b"patterns-in-1024-bytes",
        prefix(&page, PATTERN_TEXT),
    );
    of(Kind::Patterns, b"patterns-in-1025-bytes", &page);
}

// The short scheme with spaces behind it, and spaces alone.
fn long_schemes() {
    let spaces = [b' '; BEYOND_SCHEME];
    let mut padded = spaces;
    padded[..SHORT.len()].copy_from_slice(&SHORT);
    of(
        Kind::Scheme,
        b"scheme-in-32768-bytes",
        prefix(&padded, SCHEME_TEXT),
    );
    of(Kind::Scheme, b"scheme-in-32769-bytes", &padded);
    of(
        Kind::Scheme,
        b"scheme-32768-spaces",
        prefix(&spaces, SCHEME_TEXT),
    );
    of(Kind::Scheme, b"scheme-32769-spaces", &spaces);
}
