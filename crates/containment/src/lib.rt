// The public operation `contains`; whether a word contains a pattern of a set, and the earliest
// that it contains.
#![tactic(auto)]

ghost use Rattle.std.specs.Prelude.{◌≡◌, not};
ghost use Rattle.word.specs.Word.{contains as has_copy, avoids};
ghost use Rattle.word.specs.Earliest.{earliest};
ghost use Rattle.forms.specs.SetMemory.{held, held_in};
ghost use Rattle.containment.specs.SetCopies.{shown_in};
ghost use Rattle.containment.specs.Containment.{Decides};

use copy_search::first_copy;
use forms::memory::Pattern;
use word::limits::{DIGITS, WORD};
use word::permutation::is_permutation;
use word::refusal::{Refusal, Refused};

// Whether the permutation contains the pattern: with a yes the positions of the copy that is
// lexicographically first, counted from 1, and zeros after them. It is refused, with the index 0,
// where one of the two passes its ceiling (2) or is no permutation (3), the pattern tested first.
pub fn contains(pattern: &[u8], permutation: &[u8]) -> Result<Option<[usize; DIGITS]>, Refused>
    ensures { Decides pattern.now permutation.now result }
{
    if DIGITS < pattern.len() {
        return Err(Refusal::Oversize.at(0));
    }
    if pattern.len() == 0 {
        return Err(Refusal::NoPermutation.at(0));
    }
    if !is_permutation(pattern) {
        return Err(Refusal::NoPermutation.at(0));
    }
    if WORD < permutation.len() {
        return Err(Refusal::Oversize.at(0));
    }
    if !is_permutation(permutation) {
        return Err(Refusal::NoPermutation.at(0));
    }
    Ok(first_copy(pattern, permutation))
}

// Whether the pattern stands in the word.
pub fn stands_in(p: &Pattern, w: &[u8]) -> bool
    ensures { result ≡ has_copy (held p.now) w.now }
{
    first_copy(p.as_slice(), w).is_some()
}

// Whether the word contains one of the patterns.
pub fn any_in(patterns: &[Pattern], w: &[u8]) -> bool
    ensures { result ≡ not (avoids (held_in patterns.now) w.now) }
{
    patterns.iter().any(|p| stands_in(p, w))
}

// The first copy of the earliest pattern of a set that has one in a word: the index of the pattern,
// its length, the positions of the copy, counted from 1, and zeros after them.
#[derive(Clone, Copy)]
pub struct SetCopy {
    pub pattern: usize,
    pub length: usize,
    pub at: [usize; DIGITS],
}

// The first copy of the earliest of the patterns that has one in the word.
pub fn earliest_in(patterns: &[Pattern], w: &[u8]) -> Option<SetCopy>
    ensures { result ≡ shown_in (earliest (held_in patterns.now) w.now) }
{
    for (i, p) in patterns.iter().enumerate() {
        let digits = p.as_slice();
        if let Some(at) = first_copy(digits, w) {
            return Some(SetCopy {
                pattern: i,
                length: digits.len(),
                at,
            });
        }
    }
    None
}
