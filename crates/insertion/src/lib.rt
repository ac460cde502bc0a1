// The search that puts the unused values in, one after the other, each at any place behind the
// given entries.
#![tactic(auto)]

ghost use Rattle.std.specs.Prelude.{◌≡◌, true, ◌||◌, ◌≤◌, take, is_none};
ghost use Rattle.word.specs.Ceilings.{WORD};
ghost use Rattle.word.specs.Word.{is_perm};
ghost use Rattle.forms.specs.SetMemory.{held_in};
ghost use Rattle.arrangement.specs.Said.{said_yes, said_no};
ghost use Rattle.arrangement.specs.Searching.{Searches};
ghost use Rattle.insertion.specs.Insertion.{PutsIn};

use arrangement::exchange::exchanged;
use arrangement::searched::{Searched, is_spent, one_less};
use containment::any_in;
use forms::memory::Pattern;
use word::limits::WORD;

// How many first entries are given, the length of the words that are sought, and how many words may
// be tried: with None without end.
#[derive(Clone, Copy)]
pub struct Span {
    pub fixed: usize,
    pub n: usize,
    pub budget: Option<usize>,
}

// The search: whether the given entries can be completed. Behind them stand the unused values, in
// the order in which they are put in.
pub fn insertion_search(patterns: &[Pattern], word: [u8; WORD], span: Span) -> Searched
    requires { (span.fixed ≤ span.n) × (span.n ≤ WORD) × (is_perm (take span.n word) ≡ true) }
    ensures { Searches (held_in patterns.now) span.n (take span.fixed word) result ×
        (is_none span.budget ≡ true → said_yes result || said_no result ≡ true) }
{
    put_in(patterns, word, span.fixed, span)
}

// The first `len` entries are the given ones with some values put in; the next value is tried at
// each place, from the last one down.
fn put_in(patterns: &[Pattern], word: [u8; WORD], len: usize, span: Span) -> Searched
    requires { (span.fixed ≤ len) × (len ≤ span.n) × (span.n ≤ WORD) × (is_perm (take span.n word) ≡ true) }
    ensures { PutsIn (held_in patterns.now) span.n span.fixed (take len word) (is_none span.budget) result }
{
    if any_in(patterns, &word[..len]) {
        return Searched::Impossible(span.budget);
    }
    if len == span.n {
        return Searched::Completed(word);
    }
    if is_spent(span.budget) {
        return Searched::Undecided;
    }
    let mut w = word;
    let mut place = len;
    let mut left = one_less(span.budget);
    'places: loop {
        let longer = Span {
            budget: left,
            ..span
        };
        match put_in(patterns, w, len + 1, longer) {
            Searched::Impossible(rest) => left = rest,
            said => return said,
        }
        let before = place.saturating_sub(1);
        let fixed = span.fixed;
        if place == fixed {
            return Searched::Impossible(left);
        }
        let next = exchanged(w, before, place);
        w = next;
        place = before;
    }
}
