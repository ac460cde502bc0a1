// The parts of a scheme read from a text into memory: marks, prefixes, rules, entries.
ghost use Rattle.std.specs.Prelude.{◌≤◌, ◌≡◌, length, drop};
ghost use Rattle.word.specs.Ceilings.{PREFIX};
ghost use Rattle.text_grammar.specs.Spelling.{empty, byte, comma};
ghost use Rattle.text_grammar.specs.Tokens.{run, tokens};
ghost use Rattle.text_patterns.specs.PatternMemory.{filled};
ghost use Rattle.text_schemes.specs.SchemeLoaded.{entry_of, plain_entry};
ghost use Rattle.text_schemes.specs.SchemeReading.{RuleAt, EntryAt};
ghost use Rattle.text_schemes.specs.EntryReading.{MarkAt, ChoiceAt, PrefixAt, HeadAt, MiddleAt, TailAt};
ghost use Rattle.text_schemes.specs.EntryReading.{ItemAt, no_tokens};

use crate::parts::ItemRead;
use forms::memory::{Entry, Rule};
use text_gaps::gap_reader::gaps_at;
use text_gaps::parts::Gaps;
use text_gaps::positions::{positions_at, positions_of};
use text_grammar::cursor::{Cursor, Kind};
use text_patterns::digits::put_digits;
use word::limits::{GAPS, PARTS, PREFIX};

// The first digits of a prefix, and its true length.
#[derive(Clone, Copy)]
pub struct Prefix {
    pub digits: [u8; PREFIX],
    pub length: usize,
}

// The byte b, where it is due: the cursor behind it.
fn byte_at(s: &[u8], c: Cursor, b: u8) -> Option<Cursor>
    ensures { MarkAt b s.now c.at result }
{
    let t = c.step(s);
    if t.kind != Kind::Byte(b) {
        return None;
    }
    Some(t.next)
}

// ∅ or an opening brace, where one of them is due: whether it is ∅, and the cursor behind it.
pub fn opening_at(s: &[u8], c: Cursor) -> Option<(bool, Cursor)>
    ensures { ChoiceAt empty (byte 0x7B) s.now c.at result }
{
    let t = c.step(s);
    match t.kind {
        Kind::Empty => Some((true, t.next)),
        Kind::Byte(b'{') => Some((false, t.next)),
        _ => None,
    }
}

// A closing brace or a comma, where one of them is due: whether it is the brace, and the cursor
// behind it.
fn separator_at(s: &[u8], c: Cursor) -> Option<(bool, Cursor)>
    ensures { ChoiceAt (byte 0x7D) comma s.now c.at result }
{
    let t = c.step(s);
    match t.kind {
        Kind::Byte(b'}') => Some((true, t.next)),
        Kind::Byte(b',') => Some((false, t.next)),
        _ => None,
    }
}

// The first six digits of the run that stands from `from` on, as their values, and zeros after
// them.
fn digits_at(s: &[u8], from: usize, len: usize) -> [u8; PREFIX]
    requires { len ≡ length (run (drop from s.now)) }
    ensures { result ≡ filled PREFIX 0 (run (drop from s.now)) }
{
    let mut digits = [0u8; PREFIX];
    put_digits(&mut digits, s, from, len);
    digits
}

// A prefix, ε or a run of digits, and the cursor behind it.
fn prefix_at(s: &[u8], c: Cursor) -> Option<(Prefix, Cursor)>
    ensures { PrefixAt s.now c.at result }
{
    let t = c.step(s);
    match t.kind {
        Kind::Digits => {
            let length = t.next.at - t.from;
            let digits = digits_at(s, t.from, length);
            Some((Prefix { digits, length }, t.next))
        }
        Kind::Epsilon => {
            let digits = [0u8; PREFIX];
            Some((Prefix { digits, length: 0 }, t.next))
        }
        _ => None,
    }
}

// The first part of an entry, with which the text begins: an opening parenthesis, a prefix, and a
// comma.
fn head_at(s: &[u8]) -> Option<(Prefix, Cursor)>
    ensures { HeadAt s.now 0 result }
{
    let open = byte_at(s, Cursor { at: 0 }, b'(')?;
    let (prefix, behind) = prefix_at(s, open)?;
    let next = byte_at(s, behind, b',')?;
    Some((prefix, next))
}

// The second part of an entry, with which the text begins: gap vectors, and a comma.
fn middle_at(s: &[u8]) -> Option<(Gaps, Cursor)>
    ensures { MiddleAt s.now 0 result }
{
    let (gaps, behind) = gaps_at(s, Cursor { at: 0 })?;
    let next = byte_at(s, behind, b',')?;
    Some((gaps, next))
}

// The rule of an entry: ∅, or positions in braces.
fn rule_at(s: &[u8], c: Cursor) -> Option<(Rule, Cursor)>
    requires { c.at ≤ length s.now }
    ensures { RuleAt s.now c.at result }
{
    let (none, behind) = opening_at(s, c)?;
    if none {
        return Some((Rule::Expand, behind));
    }
    let (gap, next) = positions_at(s, behind)?;
    let rule = Rule::Delete(positions_of(gap));
    Some((rule, next))
}

// The third part of an entry, with which the text begins: a rule, and a closing parenthesis.
fn tail_at(s: &[u8]) -> Option<(Rule, Cursor)>
    ensures { TailAt s.now 0 result }
{
    let (rule, behind) = rule_at(s, Cursor { at: 0 })?;
    let next = byte_at(s, behind, b')')?;
    Some((rule, next))
}

// The entry with which the text begins, and the cursor behind it. "after each mark the rest of the
// text is read on from there" (01)
fn entry_at(s: &[u8]) -> Option<(Entry, Cursor)>
    ensures { EntryAt s.now 0 result }
{
    let (head, first) = head_at(s)?;
    let a = first.at;
    let (vectors, second) = middle_at(&s[a..])?;
    let b = a + second.at;
    let (rule, third) = tail_at(&s[b..])?;
    let at = b + third.at;
    let prefix = head.digits;
    let gaps = vectors.parts;
    let widths = vectors.widths;
    let entry = Entry {
        prefix,
        length: head.length,
        gaps,
        widths,
        gap_count: vectors.count,
        rule,
    };
    Some((entry, Cursor { at }))
}

// The entry at places behind the end: ε, no gap vectors, expanding.
pub fn no_entry() -> Entry
    ensures { result ≡ entry_of plain_entry }
{
    Entry {
        prefix: [0u8; PREFIX],
        length: 0,
        gaps: [0u8; PARTS],
        widths: [0u8; GAPS],
        gap_count: 0,
        rule: Rule::Expand,
    }
}

// The entry with which the text begins, and the mark behind it.
pub fn item_at(s: &[u8]) -> Option<ItemRead>
    ensures { ItemAt s.now result }
{
    let (entry, behind) = entry_at(s)?;
    let (last, next) = separator_at(s, behind)?;
    let bytes = next.at;
    Some(ItemRead {
        more: !last,
        entry,
        bytes,
    })
}

// Whether nothing but spaces comes from a cursor on.
pub fn ends_at(s: &[u8], c: Cursor) -> bool
    ensures { result ≡ no_tokens (tokens (drop c.at s.now)) }
{
    let t = c.step(s);
    t.kind == Kind::End
}
