// Whether a word can be completed to an avoider of a length, and a completion. No single search is
// quick for all sets of patterns, so three of them take turns, with budgets that double from turn
// to turn.
#![tactic(auto)]

ghost use Rattle.std.specs.Prelude.{◌≡◌, true, ◌≤◌, take};
ghost use Rattle.word.specs.Ceilings.{WORD};
ghost use Rattle.word.specs.Word.{is_perm};
ghost use Rattle.forms.specs.SetMemory.{held_in};
ghost use Rattle.arrangement.specs.Searching.{Searches, Decides};
ghost use Rattle.turns.specs.Turns.{Ready};

use appending::{Limits, appending_search};
use arrangement::ordering::{rising_behind, turned_behind};
use arrangement::searched::Searched;
use crowding::{shortest_falling, shortest_rising};
use forms::memory::Pattern;
use insertion::{Span, insertion_search};
use word::limits::WORD;

// how many words each search may try in the first turn
const FIRST: usize = 32;
// The budget from which on appending also tests the unused values in pairs. That takes up to 380
// tests of containment a word, where the other tests take 20: too many for the questions that a few
// words decide, which are most of them.
const PAIRS: usize = 256;
// a budget that no turn has: the last turn is without one
const LAST: usize = 1099511627776;

// What a turn starts from: the given entries with the unused values behind them, rising and
// falling; how many are given; the length of the avoiders; and the lengths of the shortest
// increasing and of the shortest decreasing pattern.
#[derive(Clone, Copy)]
struct Start {
    up: [u8; WORD],
    down: [u8; WORD],
    len: usize,
    n: usize,
    rises: usize,
    falls: usize,
}

// An avoider of length n that begins with the first `len` entries of the word, if there is one. The
// unused values stand behind these entries.
pub fn completed(patterns: &[Pattern], word: [u8; WORD], len: usize, n: usize) -> Option<[u8; WORD]>
    requires { (len ≤ n) × (n ≤ WORD) × (is_perm (take n word) ≡ true) }
    ensures { Decides (held_in patterns.now) n (take len word) result }
{
    let up = rising_behind(word, len, n);
    let down = turned_behind(up, len, n);
    let rises = shortest_rising(patterns);
    let falls = shortest_falling(patterns);
    let start = Start {
        up,
        down,
        len,
        n,
        rises,
        falls,
    };
    in_turns(patterns, start)
}

// The turns.
fn in_turns(patterns: &[Pattern], start: Start) -> Option<[u8; WORD]>
    requires { Ready (held_in patterns.now) start }
    ensures { Decides (held_in patterns.now) start.n (take start.len start.up) result }
{
    let mut budget = FIRST;
    while budget < LAST {
        match one_turn(patterns, start, budget) {
            Searched::Completed(word) => return Some(word),
            Searched::Impossible(_) => return None,
            Searched::Undecided => budget += budget,
        }
    }
    let span = Span {
        fixed: start.len,
        n: start.n,
        budget: None,
    };
    match insertion_search(patterns, start.down, span) {
        Searched::Completed(word) => Some(word),
        _ => None,
    }
}

// One turn: appending, putting in from the largest value down, putting in from the smallest up.
fn one_turn(patterns: &[Pattern], start: Start, budget: usize) -> Searched
    requires { Ready (held_in patterns.now) start }
    ensures { Searches (held_in patterns.now) start.n (take start.len start.up) result }
{
    let limits = Limits {
        n: start.n,
        budget: Some(budget),
        rises: start.rises,
        falls: start.falls,
        pairs: PAIRS <= budget,
    };
    let first = appending_search(patterns, start.up, start.len, limits);
    if first.is_decided() {
        return first;
    }
    let span = Span {
        fixed: start.len,
        n: start.n,
        budget: Some(budget),
    };
    let second = insertion_search(patterns, start.down, span);
    if second.is_decided() {
        return second;
    }
    insertion_search(patterns, start.up, span)
}
