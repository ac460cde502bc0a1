// Judging a set of patterns and a scheme: the tests 2 to 4 of the patterns, 2 to 9 of the scheme,
// then 10 and 11; with a lent page, and without one.
ghost use Rattle.std.specs.Prelude.{◌≡◌};
ghost use Rattle.word.specs.Finding.{clean, first_fault};
ghost use Rattle.scheme.specs.WellFormed.{pattern_tests, scheme_tests};
ghost use Rattle.forms.specs.SchemeMemory.{patterns_in, scheme_in, fault_of, or_else};
ghost use Rattle.verdict.specs.Verdict.{answered};
ghost use Rattle.verdict.specs.Truth.{WellFormed};
ghost use Rattle.judge.specs.Judgement.{Judges, JudgesWithoutPage};
ghost use Rattle.lost_word.specs.Shown.{IsShort};
ghost use Rattle.judge.specs.SetMemory.{ClaimsJudged, ShowsLost};

use crate::deletions::irreversible_fault;
use crate::live_gaps::live_fault;
use basis::{basis_of, longest_length};
use claims::entries::compared_with;
use forms::memory::{Patterns, Scheme};
use placing::tables::Word;
use set_tests::patterns_fault;
use verdict::answer::answer;
use wellformed::scheme_tests::scheme_fault;
use witness::show_witness;
use word::limits::PAGE;
use word::refusal::{Refusal, Refused};

// The verdict on the claims, and with refusal 11 the least permutation that the refused entry
// loses.
#[derive(Clone, Copy)]
pub struct Judged {
    pub verdict: Result<usize, Refused>,
    pub word: Option<Word>,
}

// Judges a scheme for a set of patterns. Nothing is asked of the caller. With refusal 11 the page
// begins with a witness for the refused entry afterwards; a page of fewer than PAGE bytes is
// refused before all else.
pub fn judge(patterns: Patterns, scheme: Scheme, page: &mut [u8]) -> Result<usize, Refused>
    ensures { Judges (patterns_in patterns) (scheme_in scheme) page.old page.new result }
{
    if page.len() < PAGE {
        return Err(Refusal::ShortPage.at(0));
    }
    formed_fault(patterns, scheme)?;
    let judged = judge_claims(patterns, scheme);
    show_lost(patterns, judged.word, page);
    judged.verdict
}

// The same without a page.
pub fn judge_without_page(patterns: Patterns, scheme: Scheme) -> Result<usize, Refused>
    ensures { JudgesWithoutPage (patterns_in patterns) (scheme_in scheme) result }
{
    formed_fault(patterns, scheme)?;
    judge_claims(patterns, scheme).verdict
}

// Writes the witness for a permutation that is lost, if there is one: the copy is sought in the set
// as it was given. The number of bytes is returned.
pub fn show_lost(patterns: Patterns, word: Option<Word>, page: &mut [u8]) -> usize
    requires { (first_fault (pattern_tests (patterns_in patterns)) ≡ clean) × IsShort word }
    ensures { ShowsLost (patterns_in patterns) word page.old page.new result }
{
    match word {
        Some(word) => show_witness(patterns.as_slice(), &word.entries[..word.length], page),
        None => 0,
    }
}

// What the tests 2 to 9 find: the patterns are judged before the scheme.
fn formed_fault(patterns: Patterns, scheme: Scheme) -> Result<(), Refused>
    ensures { result ≡ or_else (fault_of (first_fault (pattern_tests (patterns_in patterns))))
        (fault_of (first_fault (scheme_tests (scheme_in scheme)))) }
{
    patterns_fault(patterns)?;
    scheme_fault(scheme)
}

// Judges the claims of a well-formed scheme: test 10, then test 11, then the number of compared
// cells of all entries. Patterns that contain another pattern of the set change no cell, so the
// tests run on the others, the basis, and m is the length of its longest pattern.
pub fn judge_claims(patterns: Patterns, scheme: Scheme) -> Judged
    requires { WellFormed (patterns_in patterns) (scheme_in scheme) }
    ensures { ClaimsJudged (patterns_in patterns) (scheme_in scheme) result }
{
    let set = patterns.as_slice();
    let held = basis_of(set);
    let basis = held.as_slice();
    let live = live_fault(basis, scheme);
    if live.is_err() {
        return refused(live, None);
    }
    let m = longest_length(basis);
    let loss = irreversible_fault(basis, m, scheme);
    if loss.fault.is_err() {
        return refused(loss.fault, loss.word);
    }
    let mut cells: usize = 0;
    for i in 0..scheme.count {
        cells += compared_with(m, scheme.entries[i]);
    }
    let verdict = answer(loss.fault, cells);
    Judged {
        verdict,
        word: loss.word,
    }
}

// A refusal with what is shown of it.
fn refused(fault: Result<(), Refused>, word: Option<Word>) -> Judged
    ensures { (result.verdict ≡ answered fault 0) × (result.word ≡ word) }
{
    Judged {
        verdict: answer(fault, 0),
        word,
    }
}
