// Placing the head of a pattern in a prefix: the part of the candidate search that says whether a
// copy stands.
ghost use Rattle.std.specs.Prelude.{◌≡◌, ◌||◌, ◌≤◌, length, take, drop};
ghost use Rattle.word.specs.Ceilings.{DIGITS};
ghost use Rattle.word.specs.Vocabulary.{fits};
ghost use Rattle.cell.specs.Candidate.{place};
ghost use Rattle.placing.specs.Lookup.{entry_of, flagged};

use crate::tables::{Tables, told};
use word::limits::DIGITS;

// How far the head of a pattern is placed: how many of its entries are, the index in the prefix
// from which the next one is sought, and whether a value among them is deleted.
#[derive(Clone, Copy)]
pub struct Placing {
    pub placed: usize,
    pub from: usize,
    pub used: bool,
}

// Whether the new pair compares with the first s pairs alike.
fn pairs_fit(chosen: [u8; DIGITS], head: &[u8], s: usize, x: u8, a: u8) -> bool
    requires { (s ≤ DIGITS) × (s ≤ length head.now) }
    ensures { result ≡ fits (take s head.now) x (take s chosen) a }
{
    for j in 0..s {
        let below = head[j] < x;
        let found_below = chosen[j] < a;
        if below != found_below {
            return false;
        }
    }
    true
}

// Whether the entries of the head that are not placed yet can be placed in the prefix, behind those
// that stand at the values `chosen`.
pub fn placed(
    chosen: [u8; DIGITS],
    head: &[u8],
    prefix: &[u8],
    state: Placing,
    tables: Tables,
) -> bool
    requires { length head.now ≤ DIGITS }
    ensures { result ≡ place (entry_of tables.need) (entry_of tables.levels) (flagged tables.gone)
        state.used (take state.placed head.now) (take state.placed chosen)
        (drop state.placed head.now) (drop state.from prefix.now) }
{
    let s = state.placed;
    let used = state.used;
    if head.len() <= s {
        return used;
    }
    let x = head[s];
    let need = tables.need;
    let gone = tables.gone;
    let levels = tables.levels;
    let level = told(&need, x);
    for j in state.from..prefix.len() {
        let a = prefix[j];
        if told(&levels, a) != level {
            continue;
        }
        if !pairs_fit(chosen, head, s, x, a) {
            continue;
        }
        let mut next = chosen;
        next[s] = a;
        let more = used || told(&gone, a) != 0;
        let longer = Placing {
            placed: s + 1,
            from: j + 1,
            used: more,
        };
        if placed(next, head, prefix, longer, tables) {
            return true;
        }
    }
    false
}
