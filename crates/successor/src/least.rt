// The first avoider that begins with given entries, the first of all, and the next after an
// avoider, place by place.
ghost use Rattle.std.specs.Prelude.{◌≡◌, ◌+◌, ◌≤◌, ◌<◌, take, get_or};
ghost use Rattle.std.proofs.Math.Option.{some};
ghost use Rattle.word.specs.Ceilings.{WORD};
ghost use Rattle.word.specs.Lists.{one_to};
ghost use Rattle.word.specs.Listing.{first_avoider, next_avoider};
ghost use Rattle.forms.specs.SetMemory.{held_in};
ghost use Rattle.successor.specs.Values.{SeeksValue, Avoider, least_from, Lowers, given_in};

use crate::values::{Values, least_value};
use forms::memory::Pattern;
use turns::completed;
use word::limits::WORD;

// The first avoider of length n that begins with the first k entries of an avoider. At each further
// place only the values below the entry that stands there are asked for: with that entry the word
// is completed already.
fn least_from(patterns: &[Pattern], word: [u8; WORD], k: usize, n: usize) -> [u8; WORD]
    requires { (k ≤ n) × (n ≤ WORD) × Avoider (held_in patterns.now) n (take n word) }
    ensures { least_from (held_in patterns.now) n (take k word) ≡ some (take n result) }
{
    let mut best = word;
    for i in k..n {
        let next = lowered(patterns, best, i, n);
        best = next;
    }
    best
}

// An avoider with the same first i entries and the least entry behind them.
fn lowered(patterns: &[Pattern], word: [u8; WORD], i: usize, n: usize) -> [u8; WORD]
    requires { (i < n) × (n ≤ WORD) × Avoider (held_in patterns.now) n (take n word) }
    ensures { Lowers (held_in patterns.now) n i (i + 1) word result }
{
    let high = usize::from(word[i]);
    let values = Values { n, low: 1, high };
    least_value(patterns, word, i, values).unwrap_or(word)
}

// An avoider with the same first i entries and the least larger entry behind them, or none.
fn raised(patterns: &[Pattern], word: [u8; WORD], i: usize, n: usize) -> Option<[u8; WORD]>
    requires { (i < n) × (n ≤ WORD) × Avoider (held_in patterns.now) n (take n word) }
    ensures { SeeksValue (held_in patterns.now) n (take i word) (get_or word i 0 + 1) (n + 1) result }
{
    let entry = usize::from(word[i]);
    let values = Values {
        n,
        low: entry + 1,
        high: n + 1,
    };
    least_value(patterns, word, i, values)
}

// The next after an avoider: the longest front with which a larger entry can follow, the least such
// entry, and behind it the least entries.
pub fn next_of(patterns: &[Pattern], word: [u8; WORD], n: usize) -> Option<[u8; WORD]>
    requires { (n ≤ WORD) × Avoider (held_in patterns.now) n (take n word) }
    ensures { given_in n result ≡ next_avoider (held_in patterns.now) (take n word) }
{
    for i in (0..n).rev() {
        if let Some(larger) = raised(patterns, word, i, n) {
            let best = least_from(patterns, larger, i + 1, n);
            return Some(best);
        }
    }
    None
}

// The first avoider of length n.
pub fn first_of(patterns: &[Pattern], n: usize) -> Option<[u8; WORD]>
    requires { n ≤ WORD }
    ensures { given_in n result ≡ first_avoider (held_in patterns.now) n }
{
    let start = in_a_row();
    let any = completed(patterns, start, 0, n)?;
    Some(least_from(patterns, any, 0, n))
}

// The values in rising order, from 1 on.
fn in_a_row() -> [u8; WORD]
    ensures { result ≡ one_to WORD }
{
    let mut word = [0u8; WORD];
    for i in 0..WORD {
        word[i] = (i + 1) as u8;
    }
    word
}
