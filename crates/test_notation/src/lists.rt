// The lists that the reader under test gives, as the numbers of test_automaton::flat.
use forms::memory::{Entry, Patterns, Rule, Scheme};
use test_automaton::flat::{Flat, STOP};
use test_support::parts::prefix;
use word::limits::COMPONENTS;

// A pattern set as numbers.
pub fn of_patterns(s: &Patterns) -> Flat {
    let mut f = Flat::new();
    for p in s.as_slice() {
        f.push_bytes(p.as_slice());
    }
    f
}

// A scheme as numbers.
pub fn of_scheme(s: &Scheme) -> Flat {
    let mut f = Flat::new();
    for e in s.as_slice() {
        push_entry(&mut f, e);
    }
    f
}

// The numbers and an entry: its prefix, its gap vectors, and its rule.
fn push_entry(f: &mut Flat, e: &Entry) {
    f.push_bytes(prefix(&e.prefix, e.length));
    let vectors = e.gaps.chunks(COMPONENTS).zip(&e.widths);
    for (parts, width) in vectors.take(e.gap_count) {
        f.push_bytes(prefix(parts, usize::from(*width)));
    }
    f.push(STOP);
    match e.rule {
        Rule::Expand => f.push(STOP),
        Rule::Delete(d) => f.push_bytes(d.as_slice()),
    }
}
