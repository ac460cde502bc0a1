// The public operations: the first avoider of a length, and the next after an avoider.
ghost use Rattle.std.specs.Prelude.{◌≡◌, true, not, ◌≤◌, length, take, Ok};
ghost use Rattle.word.specs.Ceilings.{WORD};
ghost use Rattle.word.specs.Word.{is_perm, avoids};
ghost use Rattle.word.specs.Listing.{first_avoider, next_avoider};
ghost use Rattle.word.specs.Finding.{clean, first_fault};
ghost use Rattle.scheme.specs.WellFormed.{pattern_tests};
ghost use Rattle.forms.specs.SchemeMemory.{patterns_in, fault_of};
ghost use Rattle.lexicographic.specs.Answers.{first_tests, next_tests, Puts, ListsFirst, ListsNext};
ghost use Rattle.successor.specs.Values.{given_in};
ghost use Rattle.basis.specs.BasisSet.{IsBasis};

use basis::basis_of;
use containment::any_in;
use forms::memory::Patterns;
use set_tests::patterns_fault;
use successor::least::{first_of, next_of};
use text_page::bytes::put_bytes;
use word::limits::WORD;
use word::permutation::is_permutation;
use word::refusal::{Refusal, Refused};

// The first avoider of length n, in lexicographic order: it is written at the front of the page,
// one byte an entry, and the answer is true; it is false where there is none. Nothing is asked of
// the caller.
pub fn first_avoider(patterns: Patterns, n: usize, page: &mut [u8]) -> Result<bool, Refused>
    ensures { ListsFirst (patterns_in patterns) n page.old page.new result }
{
    first_fault(patterns, n, page.len())?;
    let answer = first_listed(patterns, n);
    Ok(put_listed(answer, n, page))
}

// The next avoider of the same length after an avoider, likewise; it is false where that was the
// last.
pub fn next_avoider(
    patterns: Patterns,
    permutation: &[u8],
    page: &mut [u8],
) -> Result<bool, Refused>
    ensures { ListsNext (patterns_in patterns) permutation.now page.old page.new result }
{
    next_fault(patterns, permutation, page.len())?;
    let answer = next_listed(patterns, permutation);
    Ok(put_listed(answer, permutation.len(), page))
}

// What the tests of the patterns, of the length and of the page find.
fn first_fault(patterns: Patterns, n: usize, room: usize) -> Result<(), Refused>
    ensures { result ≡ fault_of (first_fault (first_tests (patterns_in patterns) n room)) }
{
    patterns_fault(patterns)?;
    if WORD < n {
        return Err(Refusal::Oversize.at(0));
    }
    if room < n {
        return Err(Refusal::ShortPage.at(0));
    }
    Ok(())
}

// What the tests of the patterns, of the permutation and of the page find.
fn next_fault(patterns: Patterns, permutation: &[u8], room: usize) -> Result<(), Refused>
    ensures { result ≡ fault_of (first_fault (next_tests (patterns_in patterns) permutation.now room)) }
{
    patterns_fault(patterns)?;
    if WORD < permutation.len() {
        return Err(Refusal::Oversize.at(0));
    }
    if !is_permutation(permutation) {
        return Err(Refusal::NoPermutation.at(0));
    }
    if has_pattern(patterns, permutation) {
        return Err(Refusal::NoAvoider.at(0));
    }
    if room < permutation.len() {
        return Err(Refusal::ShortPage.at(0));
    }
    Ok(())
}

// Whether the permutation contains one of the patterns.
fn has_pattern(patterns: Patterns, permutation: &[u8]) -> bool
    requires { first_fault (pattern_tests (patterns_in patterns)) ≡ clean }
    ensures { result ≡ not (avoids (patterns_in patterns) permutation.now) }
{
    any_in(patterns.as_slice(), permutation)
}

// The patterns that contain no other: the others change no avoider, so the searches run on these.
fn basis_in(patterns: Patterns) -> Patterns
    requires { first_fault (pattern_tests (patterns_in patterns)) ≡ clean }
    ensures { IsBasis (patterns_in patterns) result }
{
    basis_of(patterns.as_slice())
}

// The first avoider of length n, or none.
fn first_listed(patterns: Patterns, n: usize) -> Option<[u8; WORD]>
    requires { (first_fault (pattern_tests (patterns_in patterns)) ≡ clean) × (n ≤ WORD) }
    ensures { given_in n result ≡ first_avoider (patterns_in patterns) n }
{
    let basis = basis_in(patterns);
    first_of(basis.as_slice(), n)
}

// The next after an avoider, or none.
fn next_listed(patterns: Patterns, permutation: &[u8]) -> Option<[u8; WORD]>
    requires { (first_fault (pattern_tests (patterns_in patterns)) ≡ clean) × (length permutation.now ≤ WORD) ×
        (is_perm permutation.now ≡ true) × (avoids (patterns_in patterns) permutation.now ≡ true) }
    ensures { given_in (length permutation.now) result ≡ next_avoider (patterns_in patterns) permutation.now }
{
    let basis = basis_in(patterns);
    let word = word_of(permutation);
    next_of(basis.as_slice(), word, permutation.len())
}

// The entries of a permutation of at most WORD entries, in the memory form of a word.
fn word_of(permutation: &[u8]) -> [u8; WORD]
    requires { length permutation.now ≤ WORD }
    ensures { take (length permutation.now) result ≡ permutation.now }
{
    let mut word = [0u8; WORD];
    word[..permutation.len()].copy_from_slice(permutation);
    word
}

// Writes the avoider that was found, and says whether there is one.
fn put_listed(answer: Option<[u8; WORD]>, n: usize, page: &mut [u8]) -> bool
    requires { n ≤ WORD }
    ensures { Puts (given_in n answer) page.old page.new (Ok result) }
{
    match answer {
        Some(word) => {
            put_bytes(page, 0, &word[..n]);
            true
        }
        None => false,
    }
}
