// Numbers, gap vectors and lists of gap vectors, read from a text into memory.
ghost use Rattle.std.specs.Prelude.{◌≡◌, false, ◌<◌, ◌≤◌, [], length, drop};
ghost use Rattle.text_grammar.specs.Tokens.{run};
ghost use Rattle.text_gaps.specs.GapMemory.{part_of, gap_of};
ghost use Rattle.text_gaps.specs.PartReading.{NumberAt, GapAt, GapsAt, loaded_gaps};
ghost use Rattle.text_gaps.specs.GapReading.{Numbered, DigitOf, stored_part, stored_gap, PartsAt, VectorsAt};

use crate::parts::Gaps;
use forms::gaps::with_gap;
use forms::memory::Gap;
use text_grammar::cursor::{Cursor, Kind};
use word::limits::{COMPONENTS, GAPS, PARTS};

// The number from a cursor on, and the cursor behind it.
pub fn number_at(s: &[u8], c: Cursor) -> Option<(usize, Cursor)>
    ensures { NumberAt s.now c.at result }
{
    let t = c.step(s);
    if t.kind != Kind::Digits {
        return None;
    }
    let value = number_of(s, t.from, t.next.at - t.from)?;
    Some((value, t.next))
}

// The number of the run that stands from `from` on: one to three digits, and no zero in front of
// others.
#[tactic(auto, using(crate::proofs::GapNumberLaws::number_long, crate::proofs::GapNumberLaws::number_zero))]
fn number_of(s: &[u8], from: usize, len: usize) -> Option<usize>
    requires { len ≡ length (run (drop from s.now)) }
    ensures { Numbered (run (drop from s.now)) result }
{
    if len == 0 {
        return None;
    }
    if 3 < len {
        return None;
    }
    let a = digit_of(s, from, 0);
    if len == 1 {
        return Some(a);
    }
    if a == 0 {
        return None;
    }
    let b = digit_of(s, from, 1);
    if len == 2 {
        return Some(a * 10 + b);
    }
    let c = digit_of(s, from, 2);
    Some((a * 10 + b) * 10 + c)
}

// The digit at a place of the run that stands from `from` on.
fn digit_of(s: &[u8], from: usize, i: usize) -> usize
    requires { i < length (run (drop from s.now)) }
    ensures { DigitOf (run (drop from s.now)) i result }
{
    let k = from + i;
    usize::from(s[k] - b'0')
}

// The gap vector from a cursor on, and the cursor behind it.
#[tactic(auto, using(crate::proofs::GapTextLaws::left_within))]
fn gap_at(s: &[u8], c: Cursor) -> Option<(Gap, Cursor)>
    ensures { GapAt s.now c.at result }
{
    let t = c.step(s);
    if t.kind != Kind::Left {
        return None;
    }
    parts_at(s, t.next)
}

// The components of a gap vector, and the cursor behind the mark after them.
fn parts_at(s: &[u8], c: Cursor) -> Option<(Gap, Cursor)>
    requires { c.at ≤ length s.now }
    ensures { PartsAt false s.now c.at result }
{
    let mut gap = no_gap();
    let mut next = c;
    loop {
        let (n, behind) = number_at(s, next)?;
        gap = stored_part(gap, n);
        let t = behind.step(s);
        next = t.next;
        if t.kind == Kind::Right {
            return Some((gap, next));
        }
        if t.kind != Kind::Byte(b',') {
            return None;
        }
    }
}

// The gap vector with one component more, which is kept where there is room.
fn stored_part(gap: Gap, n: usize) -> Gap
    requires { gap.width < 18446744073709551615 }
    ensures { result ≡ stored_part gap n }
{
    let mut parts = gap.parts;
    let k = gap.width;
    if k < COMPONENTS {
        let b = part(n);
        parts[k] = b;
        return Gap {
            parts,
            width: k + 1,
        };
    }
    Gap {
        parts,
        width: k + 1,
    }
}

// A component, or a number of components, as a byte: 255 stands for every number beyond.
pub fn part(n: usize) -> u8
    ensures { result ≡ part_of n }
{
    if n <= 255 {
        return n as u8;
    }
    255
}

// No components.
fn no_gap() -> Gap
    ensures { result ≡ gap_of [] }
{
    Gap {
        parts: [0u8; COMPONENTS],
        width: 0,
    }
}

// The gap vectors from a cursor on, ∅ or vectors in braces, and the cursor behind them.
#[tactic(auto, using(text_grammar::proofs::TextItemLaws::brace_within))]
pub fn gaps_at(s: &[u8], c: Cursor) -> Option<(Gaps, Cursor)>
    ensures { GapsAt s.now c.at result }
{
    let t = c.step(s);
    if t.kind == Kind::Empty {
        return Some((no_gaps(), t.next));
    }
    if t.kind != Kind::Byte(b'{') {
        return None;
    }
    vectors_at(s, t.next)
}

// The vectors of a list, and the cursor behind the brace after them.
fn vectors_at(s: &[u8], c: Cursor) -> Option<(Gaps, Cursor)>
    requires { c.at ≤ length s.now }
    ensures { VectorsAt s.now c.at result }
{
    let mut gaps = no_gaps();
    let mut next = c;
    loop {
        let (g, behind) = gap_at(s, next)?;
        gaps = stored_gap(gaps, g);
        let t = behind.step(s);
        next = t.next;
        if t.kind == Kind::Byte(b'}') {
            return Some((gaps, next));
        }
        if t.kind != Kind::Byte(b',') {
            return None;
        }
    }
}

// The vectors with one more, which is kept where there is room.
fn stored_gap(gaps: Gaps, g: Gap) -> Gaps
    requires { gaps.count < 18446744073709551615 }
    ensures { result ≡ stored_gap gaps g }
{
    let parts = gaps.parts;
    let mut widths = gaps.widths;
    let n = gaps.count;
    if n < GAPS {
        let item = g.parts;
        let stored = with_gap(parts, n, item);
        let w = part(g.width);
        widths[n] = w;
        return Gaps {
            parts: stored,
            widths,
            count: n + 1,
        };
    }
    Gaps {
        parts,
        widths,
        count: n + 1,
    }
}

// No gap vectors.
fn no_gaps() -> Gaps
    ensures { result ≡ loaded_gaps [] }
{
    Gaps {
        parts: [0u8; PARTS],
        widths: [0u8; GAPS],
        count: 0,
    }
}
