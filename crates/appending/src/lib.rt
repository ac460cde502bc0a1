// The search that appends the unused values, one after the other.
#![tactic(auto)]

ghost use Rattle.std.specs.Prelude.{◌≡◌, true, [], ◌∷◌, ◌++◌, ◌+◌, ◌≤◌, ◌<◌, take, drop, get_or};
ghost use Rattle.word.specs.Ceilings.{WORD};
ghost use Rattle.word.specs.Lists.{all};
ghost use Rattle.word.specs.Word.{is_perm, avoids};
ghost use Rattle.forms.specs.SetMemory.{held_in};
ghost use Rattle.arrangement.specs.Searching.{Searches};
ghost use Rattle.appending.specs.Appending.{Shortest, RuledOut};
ghost use Rattle.appending.specs.Pairs.{pair_allowed, all_pairs};

use arrangement::exchange::exchanged;
use arrangement::searched::{Searched, is_spent, one_less};
use completion::all_allowed;
use containment::any_in;
use crowding::is_crowded;
use forms::memory::Pattern;
use word::limits::WORD;

// The length of the words that are sought, how many words may be tried, with None without end, the
// lengths of the shortest increasing and of the shortest decreasing pattern, and whether the unused
// values are also tested in pairs.
#[derive(Clone, Copy)]
pub struct Limits {
    pub n: usize,
    pub budget: Option<usize>,
    pub rises: usize,
    pub falls: usize,
    pub pairs: bool,
}

// The search: whether the first `len` entries can be completed. Behind them stand the unused
// values, in the order in which they are tried.
pub fn appending_search(
    patterns: &[Pattern],
    word: [u8; WORD],
    len: usize,
    limits: Limits,
) -> Searched
    requires { (len ≤ limits.n) × (limits.n ≤ WORD) × (is_perm (take limits.n word) ≡ true) ×
        Shortest (held_in patterns.now) limits.rises limits.falls }
    ensures { Searches (held_in patterns.now) limits.n (take len word) result }
{
    if any_in(patterns, &word[..len]) {
        return Searched::Impossible(limits.budget);
    }
    append(patterns, word, len, limits)
}

// The search for entries that avoid the patterns: where no test rules a completion out, each of the
// unused values is tried behind them.
fn append(patterns: &[Pattern], word: [u8; WORD], len: usize, limits: Limits) -> Searched
    requires { (len ≤ limits.n) × (limits.n ≤ WORD) × (is_perm (take limits.n word) ≡ true) ×
        Shortest (held_in patterns.now) limits.rises limits.falls × (avoids (held_in patterns.now) (take len word) ≡ true) }
    ensures { Searches (held_in patterns.now) limits.n (take len word) result }
{
    if len == limits.n {
        return Searched::Completed(word);
    }
    if is_spent(limits.budget) {
        return Searched::Undecided;
    }
    let mut left = one_less(limits.budget);
    if is_ruled_out(patterns, word, len, limits) {
        return Searched::Impossible(left);
    }
    let longer = len + 1;
    let mut w = word;
    for j in len..limits.n {
        let next = exchanged(w, len, j);
        w = next;
        let smaller = Limits {
            budget: left,
            ..limits
        };
        match append(patterns, w, longer, smaller) {
            Searched::Impossible(rest) => left = rest,
            said => return said,
        }
    }
    Searched::Impossible(left)
}

// Whether a test rules a completion out: too many unused values lie between two bounds, or one of
// them cannot follow, or, where pairs are tested, two of them cannot follow in either order.
fn is_ruled_out(patterns: &[Pattern], word: [u8; WORD], len: usize, limits: Limits) -> bool
    requires { (len < limits.n) × (limits.n ≤ WORD) × (is_perm (take limits.n word) ≡ true) ×
        Shortest (held_in patterns.now) limits.rises limits.falls }
    ensures { RuledOut (held_in patterns.now) limits.n (take len word) result }
{
    if is_crowded(word, len, limits.n, limits.rises, limits.falls) {
        return true;
    }
    if !all_allowed(patterns, word, len, limits.n) {
        return true;
    }
    if !limits.pairs {
        return false;
    }
    !pairs_allowed(patterns, word, len, limits.n)
}

// Whether each two of the unused values, which stand behind the first `len` entries up to n, can
// follow these entries in one of the two orders.
fn pairs_allowed(patterns: &[Pattern], word: [u8; WORD], len: usize, n: usize) -> bool
    requires { (len ≤ n) × (n ≤ WORD) }
    ensures { result ≡ all_pairs (held_in patterns.now) (take len word) (drop len (take n word)) }
{
    for at in len..n {
        if !pairs_with(patterns, word, len, at) {
            return false;
        }
    }
    true
}

// Whether the value at the place `at` and each of those from `len` to this place can follow the
// first `len` entries in one of the two orders.
fn pairs_with(patterns: &[Pattern], word: [u8; WORD], len: usize, at: usize) -> bool
    requires { (len ≤ at) × (at < WORD) }
    ensures { result ≡ all (pair_allowed (held_in patterns.now) (take len word) (get_or word at 0))
        (drop len (take at word)) }
{
    let b = word[at];
    for i in len..at {
        let a = word[i];
        let one = followed(word, len, a, b);
        if !any_in(patterns, &one[..len + 2]) {
            continue;
        }
        let other = followed(word, len, b, a);
        if any_in(patterns, &other[..len + 2]) {
            return false;
        }
    }
    true
}

// The word with a and b behind its first `len` entries.
fn followed(word: [u8; WORD], len: usize, a: u8, b: u8) -> [u8; WORD]
    requires { len + 1 < WORD }
    ensures { take (len + 2) result ≡ take len word ++ (a ∷ b ∷ []) }
{
    let mut longer = word;
    longer[len] = a;
    longer[len + 1] = b;
    longer
}
