// The avoiders one after the other, each in a word of its own.
ghost use Rattle.std.specs.Prelude.{◌≡◌, take};
ghost use Rattle.word.specs.Ceilings.{WORD};
ghost use Rattle.word.specs.Listing.{first_avoider, next_avoider};
ghost use Rattle.word.specs.Finding.{first_fault};
ghost use Rattle.forms.specs.SchemeMemory.{patterns_in};
ghost use Rattle.lexicographic.specs.Answers.{first_tests, next_tests};
ghost use Rattle.avoider_lines.specs.Followed.{is_given, shown, unless_fault};

use forms::memory::Patterns;
use lexicographic::listing::{first_avoider, next_avoider};
use word::limits::WORD;
use word::refusal::Refused;

// The first avoider of length n.
pub fn first_word(patterns: Patterns, n: usize) -> Option<[u8; WORD]>
    ensures { shown n result ≡ unless_fault (first_fault (first_tests (patterns_in patterns) n WORD))
        (first_avoider (patterns_in patterns) n) }
{
    let mut word = [0u8; WORD];
    let listed = first_avoider(patterns, n, &mut word);
    if !is_given(listed) {
        return None;
    }
    Some(word)
}

// The next after the avoider that the first n entries of the word are.
pub fn next_word(patterns: Patterns, word: [u8; WORD], n: usize) -> Option<[u8; WORD]>
    ensures { shown n result ≡ unless_fault (first_fault (next_tests (patterns_in patterns) (take n word) WORD))
        (next_avoider (patterns_in patterns) (take n word)) }
{
    let count = n.min(WORD);
    let mut next = [0u8; WORD];
    let listed = next_avoider(patterns, &word[..count], &mut next);
    if !is_given(listed) {
        return None;
    }
    Some(next)
}

// Whether an avoider was given.
fn is_given(listed: Result<bool, Refused>) -> bool
    ensures { result ≡ is_given listed }
{
    matches!(listed, Ok(true))
}
