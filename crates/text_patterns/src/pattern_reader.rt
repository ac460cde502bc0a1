// A pattern set read from a text into memory, in one pass.
ghost use Rattle.std.specs.Prelude.{◌≡◌, ◌≤◌, [], length, drop};
ghost use Rattle.word.specs.Ceilings.{DIGITS};
ghost use Rattle.text_grammar.specs.Tokens.{run, tokens};
ghost use Rattle.text_grammar.specs.Grammar.{read_patterns};
ghost use Rattle.text_patterns.specs.PatternMemory.{filled, loaded_patterns, pattern_text};
ghost use Rattle.text_patterns.specs.PatternReading.{PatternAt, ItemsAt, SetAt};

use crate::digits::put_digits;
use forms::memory::{Pattern, Patterns};
use text_grammar::cursor::{Cursor, Kind};
use word::limits::{DIGITS, PATTERNS};

// The pattern set that a text spells, where nothing comes after it: the true number of patterns, of
// each the true number of digits; the first 24 patterns are kept, of each the first 8 digits.
// "after each mark the rest of the text is read on from there" (01)
pub fn load_patterns(s: &[u8]) -> Option<Patterns>
    ensures { result ≡ pattern_text (read_patterns (tokens s.now)) }
{
    let (patterns, behind) = set_at(s, Cursor { at: 0 })?;
    let t = behind.step(s);
    if t.kind != Kind::End {
        return None;
    }
    Some(patterns)
}

// The pattern set from a cursor on: ∅, or patterns in braces; and the cursor behind it.
#[tactic(auto, using(text_grammar::proofs::TextItemLaws::brace_within))]
fn set_at(s: &[u8], c: Cursor) -> Option<(Patterns, Cursor)>
    ensures { SetAt s.now c.at result }
{
    let t = c.step(s);
    if t.kind == Kind::Empty {
        return Some((no_patterns(), t.next));
    }
    if t.kind != Kind::Byte(b'{') {
        return None;
    }
    items_at(s, t.next)
}

// The patterns of a set and the brace behind them. All are counted, the first 24 are kept.
fn items_at(s: &[u8], c: Cursor) -> Option<(Patterns, Cursor)>
    requires { c.at ≤ length s.now }
    ensures { ItemsAt s.now c.at result }
{
    let none = no_patterns();
    let mut items = none.items;
    let mut count: usize = 0;
    let mut next = c;
    loop {
        let (pattern, behind) = pattern_at(s, next)?;
        if count < PATTERNS {
            items[count] = pattern;
        }
        count += 1;
        let t = behind.step(s);
        next = t.next;
        if t.kind == Kind::Byte(b'}') {
            return Some((Patterns { items, count }, next));
        }
        if t.kind != Kind::Byte(b',') {
            return None;
        }
    }
}

// The pattern from a cursor on, a run of digits or ε, and the cursor behind it.
fn pattern_at(s: &[u8], c: Cursor) -> Option<(Pattern, Cursor)>
    ensures { PatternAt s.now c.at result }
{
    let t = c.step(s);
    match t.kind {
        Kind::Digits => {
            let length = t.next.at - t.from;
            let digits = digits_at(s, t.from, length);
            Some((Pattern { digits, length }, t.next))
        }
        Kind::Epsilon => {
            let digits = [0u8; DIGITS];
            Some((Pattern { digits, length: 0 }, t.next))
        }
        _ => None,
    }
}

// The first eight digits of the run that stands from `from` on, as their values, and zeros after
// them.
fn digits_at(s: &[u8], from: usize, len: usize) -> [u8; DIGITS]
    requires { len ≡ length (run (drop from s.now)) }
    ensures { result ≡ filled DIGITS 0 (run (drop from s.now)) }
{
    let mut digits = [0u8; DIGITS];
    put_digits(&mut digits, s, from, len);
    digits
}

// No patterns.
pub fn no_patterns() -> Patterns
    ensures { result ≡ loaded_patterns [] }
{
    Patterns {
        items: [Pattern {
            digits: [0u8; DIGITS],
            length: 0,
        }; PATTERNS],
        count: 0,
    }
}
