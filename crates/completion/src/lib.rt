// The emptiness search: whether a word of first entries can be completed to an avoider of a given
// length.
#![tactic(auto)]

ghost use Rattle.std.specs.Prelude.{◌≡◌, true, [], ◌∷◌, ◌++◌, ◌+◌, ◌≤◌, ◌<◌, take};
ghost use Rattle.word.specs.Ceilings.{WORD};
ghost use Rattle.forms.specs.SetMemory.{held_in};
ghost use Rattle.completion.specs.Completion.{completable as completes, begun, all_allowed};

use containment::any_in;
use forms::memory::Pattern;
use word::limits::WORD;
use word::permutation::stands_from;

// Whether some avoider of length n begins with the first `len` entries of the word.
pub fn completable(patterns: &[Pattern], word: [u8; WORD], len: usize, n: usize) -> bool
    requires { (len ≤ WORD) × (n ≤ WORD) }
    ensures { result ≡ completes (held_in patterns.now) n (take len word) }
{
    if n < len {
        return false;
    }
    if !is_begun(&word[..len], n) {
        return false;
    }
    goes_on(patterns, word, len, n)
}

// Whether the entries of the word are from 1 to n, none of them twice.
fn is_begun(word: &[u8], n: usize) -> bool
    ensures { result ≡ begun n word.now }
{
    for (i, &x) in word.iter().enumerate() {
        if x == 0 {
            return false;
        }
        if n < usize::from(x) {
            return false;
        }
        if stands_from(&word[..i], 0, x) {
            return false;
        }
    }
    true
}

// The search: where every value that does not stand in the word can follow it, each of them is
// tried, in rising order, until one leads to an avoider.
fn goes_on(patterns: &[Pattern], word: [u8; WORD], len: usize, n: usize) -> bool
    requires { (len ≤ n) × (n ≤ WORD) × (begun n (take len word) ≡ true) }
    ensures { result ≡ completes (held_in patterns.now) n (take len word) }
{
    if len == n {
        return !any_in(patterns, &word[..len]);
    }
    if !all_allowed(patterns, word, len, n) {
        return false;
    }
    for v in 1..n + 1 {
        let x = v as u8;
        if stands_from(&word[..len], 0, x) {
            continue;
        }
        let longer = put(word, len, x);
        let found = goes_on(patterns, longer, len + 1, n);
        if found {
            return found;
        }
    }
    false
}

// Whether each value from 1 to n stands in the word, or the word followed by it avoids the
// patterns.
pub fn all_allowed(patterns: &[Pattern], word: [u8; WORD], len: usize, n: usize) -> bool
    requires { (len < n) × (n ≤ WORD) }
    ensures { result ≡ all_allowed (held_in patterns.now) n (take len word) }
{
    for next in 1..n + 1 {
        let v = next as u8;
        if stands_from(&word[..len], 0, v) {
            continue;
        }
        let longer = put(word, len, v);
        if any_in(patterns, &longer[..len + 1]) {
            return false;
        }
    }
    true
}

// The word with v behind its first `len` entries.
fn put(word: [u8; WORD], len: usize, v: u8) -> [u8; WORD]
    requires { len < WORD }
    ensures { take (len + 1) result ≡ take len word ++ (v ∷ []) }
{
    let mut longer = word;
    longer[len] = v;
    longer
}
