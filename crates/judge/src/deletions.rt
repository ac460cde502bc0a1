// Test 11 over all entries, one entry at a time.
ghost use Rattle.std.specs.Prelude.{◌≤◌};
ghost use Rattle.word.specs.Ceilings.{DIGITS};
ghost use Rattle.word.specs.Word.{longest};
ghost use Rattle.forms.specs.SchemeMemory.{scheme_in};
ghost use Rattle.forms.specs.SetMemory.{held_in};
ghost use Rattle.claims.specs.EntryMemory.{ProperSet};
ghost use Rattle.scheme.specs.Proper.{Proper};
ghost use Rattle.judge.specs.SetMemory.{Loses};

use candidate::needed::all_needs;
use claims::entries::is_irreversible;
use forms::memory::{Pattern, Scheme};
use placing::tables::Word;
use word::refusal::{Refusal, Refused};

// What test 11 finds, and the least permutation that the entry at fault loses.
#[derive(Clone, Copy)]
pub struct Loss {
    pub fault: Result<(), Refused>,
    pub word: Option<Word>,
}

// Test 11: the first entry some of whose compared sizes differ. No pattern is longer than m, below
// which the totals of the compared spacings lie.
pub fn irreversible_fault(patterns: &[Pattern], m: usize, s: Scheme) -> Loss
    requires { ProperSet (held_in patterns.now) × (longest (held_in patterns.now) ≤ m) × (m ≤ DIGITS) ×
        Proper (scheme_in s) }
    ensures { Loses m (held_in patterns.now) (scheme_in s) result }
{
    let needs = all_needs(patterns);
    for i in 0..s.count {
        let lost = is_irreversible(patterns, &needs, m, s.entries[i]);
        if let Some(word) = lost {
            return Loss {
                fault: Err(Refusal::Irreversible.at(i)),
                word: Some(word),
            };
        }
    }
    Loss {
        fault: Ok(()),
        word: None,
    }
}
