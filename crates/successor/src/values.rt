// The least of some values with which the first entries of a word can be completed.
ghost use Rattle.std.specs.Prelude.{◌≡◌, true, [], ◌∷◌, ◌++◌, ◌+◌, ◌≤◌, ◌<◌, take};
ghost use Rattle.word.specs.Ceilings.{WORD};
ghost use Rattle.word.specs.Word.{is_perm};
ghost use Rattle.forms.specs.SetMemory.{held_in};
ghost use Rattle.arrangement.specs.Searching.{Decides};
ghost use Rattle.successor.specs.Values.{PlaceOf, SeeksValue};

use arrangement::exchange::exchanged;
use forms::memory::Pattern;
use turns::completed;
use word::limits::WORD;

// The values from `low` to below `high`, for an avoider of length n.
#[derive(Clone, Copy)]
pub struct Values {
    pub n: usize,
    pub low: usize,
    pub high: usize,
}

// The least of the values with which the first i entries of the word can be completed, as the
// completion that begins with them and it, or none.
pub fn least_value(
    patterns: &[Pattern],
    word: [u8; WORD],
    i: usize,
    values: Values,
) -> Option<[u8; WORD]>
    requires { (i < values.n) × (values.n ≤ WORD) × (1 ≤ values.low) × (values.high ≤ values.n + 1) ×
        (is_perm (take values.n word) ≡ true) }
    ensures { SeeksValue (held_in patterns.now) values.n (take i word) values.low values.high result }
{
    for value in values.low..values.high {
        if let Some(answer) = asked(patterns, word, i, values.n, value) {
            return Some(answer);
        }
    }
    None
}

// An avoider of length n that begins with the first i entries of the word and the value behind
// them, if there is one: the value is brought to that place from among the unused ones.
fn asked(
    patterns: &[Pattern],
    word: [u8; WORD],
    i: usize,
    n: usize,
    value: usize,
) -> Option<[u8; WORD]>
    requires { (i < n) × (n ≤ WORD) × (1 ≤ value) × (value ≤ n) × (is_perm (take n word) ≡ true) }
    ensures { Decides (held_in patterns.now) n (take i word ++ (value ∷ [])) result }
{
    let j = place_of(word, i, n, value as u8)?;
    let other = exchanged(word, i, j);
    completed(patterns, other, i + 1, n)
}

// The place of a value among the entries from the place i to n.
fn place_of(word: [u8; WORD], i: usize, n: usize, value: u8) -> Option<usize>
    requires { (i ≤ n) × (n ≤ WORD) }
    ensures { PlaceOf word i n value result }
{
    for j in i..n {
        if word[j] == value {
            return Some(j);
        }
    }
    None
}
