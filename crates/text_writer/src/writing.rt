// Writing pattern sets and schemes over a lent page. Bytes behind the end of the page are dropped,
// so that a run on an empty page gives the length.
ghost use Rattle.std.specs.Prelude.{[], ◌∷◌, ◌-◌, ◌≤◌, ◌<◌, length};
ghost use Rattle.forms.specs.SchemeList.{deletes};
ghost use Rattle.forms.specs.SchemeMemory.{padded, pattern_in, patterns_in, gap_in, positions_in, does_of, entry_in, scheme_in};
ghost use Rattle.text_grammar.specs.Spelling.{bytes_of, perm_piece, digits, numeral, vector_pieces, rule_pieces, entry_pieces};
ghost use Rattle.text_grammar.specs.Spelling.{written_patterns, written_scheme};
ghost use Rattle.text_page.specs.Page.{Writes, Room};
ghost use Rattle.text_writer.specs.Writable.{DigitsFit, PatternFits, PatternsFit, GapFits, PositionsFit};
ghost use Rattle.text_writer.specs.Writable.{RuleFits, EntryFits, SchemeFits};
ghost use Rattle.text_writer.specs.Writable.{text, further, number, pattern_at, vector_at, gap_pieces, entry_at};

use forms::gaps::entry_gap;
use forms::memory::{Entry, Gap, Pattern, Patterns, Positions, Rule, Scheme};
use text_grammar::marks::{EMPTY, EPSILON, LEFT, RIGHT};
use text_page::bytes::{put, put_bytes, put_decimal};

// Writes the first n digits.
fn put_digits(page: &mut [u8], at: usize, run: &[u8], n: usize) -> usize
    requires { DigitsFit n run.now × Room (bytes_of (digits (padded n run.now))) at }
    ensures { Writes (bytes_of (digits (padded n run.now))) at page.old page.new result }
{
    let mut next = at;
    for i in 0..n {
        next = put(page, next, 48 + run[i]);
    }
    next
}

// Writes the permutation of the first n digits: ε where n is 0.
fn put_permutation(page: &mut [u8], at: usize, run: &[u8], n: usize) -> usize
    requires { DigitsFit n run.now × Room (bytes_of (perm_piece (padded n run.now))) at }
    ensures { Writes (bytes_of (perm_piece (padded n run.now))) at page.old page.new result }
{
    if n == 0 {
        return put_bytes(page, at, &EPSILON);
    }
    put_digits(page, at, run, n)
}

// Writes a pattern.
fn put_pattern(page: &mut [u8], at: usize, p: Pattern) -> usize
    requires { PatternFits p × Room (text (perm_piece (pattern_in p) ∷ [])) at }
    ensures { Writes (text (perm_piece (pattern_in p) ∷ [])) at page.old page.new result }
{
    let run = p.digits;
    let n = p.length;
    put_permutation(page, at, &run, n)
}

// Writes the patterns after the first, a comma before each.
fn put_further_patterns(page: &mut [u8], at: usize, s: Patterns) -> usize
    requires { PatternsFit s × (1 ≤ s.count) × Room (further (pattern_at s.items) 1 (s.count - 1)) at }
    ensures { Writes (further (pattern_at s.items) 1 (s.count - 1)) at page.old page.new result }
{
    let items = s.items;
    let mut next = at;
    for i in 1..s.count {
        let from = put(page, next, b',');
        next = put_pattern(page, from, items[i]);
    }
    next
}

// Writes a set of patterns.
pub fn put_patterns(page: &mut [u8], at: usize, s: Patterns) -> usize
    requires { PatternsFit s × (at ≤ 1000000) }
    ensures { Writes (written_patterns (patterns_in s)) at page.old page.new result }
{
    let items = s.items;
    if s.count == 0 {
        return put_bytes(page, at, &EMPTY);
    }
    let first = put(page, at, b'{');
    let second = put_pattern(page, first, items[0]);
    let last = put_further_patterns(page, second, s);
    put(page, last, b'}')
}

// Writes a number of up to three digits.
fn put_number(page: &mut [u8], at: usize, n: usize) -> usize
    requires { (n ≤ 999) × Room (bytes_of (digits (numeral n))) at }
    ensures { Writes (bytes_of (digits (numeral n))) at page.old page.new result }
{
    put_decimal(page, at, n as u64)
}

// Writes a component of a gap vector, or a position.
fn put_part(page: &mut [u8], at: usize, x: u8) -> usize
    requires { Room (text (digits (numeral x) ∷ [])) at }
    ensures { Writes (text (digits (numeral x) ∷ [])) at page.old page.new result }
{
    put_number(page, at, usize::from(x))
}

// Writes the first n numbers of an array but for the first of them, a comma before each.
fn put_further_parts(page: &mut [u8], at: usize, parts: &[u8], n: usize) -> usize
    requires { (1 ≤ n) × (n ≤ length parts.now) × Room (further (number parts.now) 1 (n - 1)) at }
    ensures { Writes (further (number parts.now) 1 (n - 1)) at page.old page.new result }
{
    let mut next = at;
    for k in 1..n {
        let from = put(page, next, b',');
        next = put_part(page, from, parts[k]);
    }
    next
}

// Writes a gap vector.
fn put_vector(page: &mut [u8], at: usize, g: Gap) -> usize
    requires { GapFits g × Room (text (vector_pieces (gap_in g))) at }
    ensures { Writes (text (vector_pieces (gap_in g))) at page.old page.new result }
{
    let parts = g.parts;
    let n = g.width;
    let first = put_bytes(page, at, &LEFT);
    let second = put_part(page, first, parts[0]);
    let last = put_further_parts(page, second, &parts, n);
    put_bytes(page, last, &RIGHT)
}

// Writes the gap vector of an entry with index j.
fn put_vector_at(page: &mut [u8], at: usize, e: Entry, j: usize) -> usize
    requires { EntryFits e × (j < e.gap_count) × Room (text (vector_at e j)) at }
    ensures { Writes (text (vector_at e j)) at page.old page.new result }
{
    let g = entry_gap(e, j);
    put_vector(page, at, g)
}

// Writes the gap vectors after the first, a comma before each.
fn put_further_vectors(page: &mut [u8], at: usize, e: Entry) -> usize
    requires { EntryFits e × Room (further (vector_at e) 1 (e.gap_count - 1)) at }
    ensures { Writes (further (vector_at e) 1 (e.gap_count - 1)) at page.old page.new result }
{
    let mut next = at;
    for i in 1..e.gap_count {
        let from = put(page, next, b',');
        next = put_vector_at(page, from, e, i);
    }
    next
}

// Writes the gap vectors of an entry.
fn put_gaps(page: &mut [u8], at: usize, e: Entry) -> usize
    requires { EntryFits e × Room (text (gap_pieces e)) at }
    ensures { Writes (text (gap_pieces e)) at page.old page.new result }
{
    if e.gap_count == 0 {
        return put_bytes(page, at, &EMPTY);
    }
    let first = put(page, at, b'{');
    let second = put_vector_at(page, first, e, 0);
    let last = put_further_vectors(page, second, e);
    put(page, last, b'}')
}

// Writes the deleted positions.
fn put_deleted(page: &mut [u8], at: usize, d: Positions) -> usize
    requires { PositionsFit d × Room (text (rule_pieces (deletes (positions_in d)))) at }
    ensures { Writes (text (rule_pieces (deletes (positions_in d)))) at page.old page.new result }
{
    let n = usize::from(d.count);
    let first = put(page, at, b'{');
    let second = put_part(page, first, d.positions[0]);
    let last = put_further_parts(page, second, &d.positions, n);
    put(page, last, b'}')
}

// Writes a rule.
fn put_rule(page: &mut [u8], at: usize, rule: Rule) -> usize
    requires { RuleFits rule × Room (text (rule_pieces (does_of rule))) at }
    ensures { Writes (text (rule_pieces (does_of rule))) at page.old page.new result }
{
    match rule {
        Rule::Expand => put_bytes(page, at, &EMPTY),
        Rule::Delete(d) => put_deleted(page, at, d),
    }
}

// Writes an entry.
fn put_entry(page: &mut [u8], at: usize, e: Entry) -> usize
    requires { EntryFits e × Room (text (entry_pieces (entry_in e))) at }
    ensures { Writes (text (entry_pieces (entry_in e))) at page.old page.new result }
{
    let prefix = e.prefix;
    let n = e.length;
    let rule = e.rule;
    let first = put(page, at, b'(');
    let second = put_permutation(page, first, &prefix, n);
    let third = put(page, second, b',');
    let fourth = put_gaps(page, third, e);
    let fifth = put(page, fourth, b',');
    let last = put_rule(page, fifth, rule);
    put(page, last, b')')
}

// Writes the entries after the first, a comma before each.
fn put_further_entries(page: &mut [u8], at: usize, s: Scheme) -> usize
    requires { SchemeFits s × (1 ≤ s.count) × Room (further (entry_at s.entries) 1 (s.count - 1)) at }
    ensures { Writes (further (entry_at s.entries) 1 (s.count - 1)) at page.old page.new result }
{
    let entries = s.entries;
    let count = s.count;
    let mut next = at;
    for i in 1..count {
        let from = put(page, next, b',');
        next = put_entry(page, from, entries[i]);
    }
    next
}

// Writes a scheme.
pub fn put_scheme(page: &mut [u8], at: usize, s: Scheme) -> usize
    requires { SchemeFits s × (at ≤ 1000000) }
    ensures { Writes (written_scheme (scheme_in s)) at page.old page.new result }
{
    let entries = s.entries;
    if s.count == 0 {
        return put_bytes(page, at, &EMPTY);
    }
    let first = put(page, at, b'{');
    let second = put_entry(page, first, entries[0]);
    let last = put_further_entries(page, second, s);
    put(page, last, b'}')
}
