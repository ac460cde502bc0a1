// The claims of one entry in memory: whether a gap vector's cell is not empty, whether the deletion
// is irreversible and what it loses then, how many cells are compared.
ghost use Rattle.std.specs.Prelude.{◌≡◌, ◌≤◌};
ghost use Rattle.word.specs.Ceilings.{DIGITS};
ghost use Rattle.word.specs.Word.{longest};
ghost use Rattle.forms.specs.SetMemory.{held_in};
ghost use Rattle.forms.specs.SchemeMemory.{entry_in};
ghost use Rattle.candidate.specs.Ready.{AllNeeds};
ghost use Rattle.verdict.specs.Verdict.{live_gap};
ghost use Rattle.scheme.specs.Proper.{ProperEntry};
ghost use Rattle.claims.specs.EntryMemory.{ProperSet, DeletesAt, LostAnswer, ComparedAnswer};

use crate::gaps::is_live;
use candidate::search::{Deletion, irreversible};
use forms::gaps::entry_gap;
use forms::memory::{Entry, Pattern, Positions, Rule};
use lost_word::least::least_lost;
use placing::tables::Word;
use spacing::compared_count;

// Refusal 10 of one entry: whether the cell at one of its gap vectors is not empty.
pub fn has_live_gap(patterns: &[Pattern], e: Entry) -> bool
    requires { ProperEntry (entry_in e) }
    ensures { result ≡ live_gap (held_in patterns.now) (entry_in e).prefix (entry_in e).gaps }
{
    let prefix = e.prefix;
    let k = e.length;
    for j in 0..e.gap_count {
        let b = entry_gap(e, j);
        if is_live(patterns, prefix, k, b) {
            return true;
        }
    }
    false
}

// Refusal 11 of one entry: whether some compared sizes differ, and then the least permutation that
// the deletion loses, with all deleted positions put back. No pattern is longer than m, below which
// the totals of the compared spacings lie; the levels are those that the head entries of the
// patterns need.
pub fn is_irreversible(patterns: &[Pattern], needs: &[u8], m: usize, e: Entry) -> Option<Word>
    requires { AllNeeds (held_in patterns.now) needs.now × ProperSet (held_in patterns.now) ×
        (longest (held_in patterns.now) ≤ m) × (m ≤ DIGITS) × ProperEntry (entry_in e) }
    ensures { LostAnswer m (held_in patterns.now) (entry_in e) result }
{
    let rule = e.rule;
    match rule {
        Rule::Expand => None,
        Rule::Delete(d) => loses(patterns, needs, m, e, d),
    }
}

// The least permutation that the deletion of the positions loses, if it loses a member of the
// shorter cell.
fn loses(patterns: &[Pattern], needs: &[u8], m: usize, e: Entry, d: Positions) -> Option<Word>
    requires { AllNeeds (held_in patterns.now) needs.now × ProperSet (held_in patterns.now) ×
        (longest (held_in patterns.now) ≤ m) × (m ≤ DIGITS) × ProperEntry (entry_in e) × DeletesAt e d }
    ensures { LostAnswer m (held_in patterns.now) (entry_in e) result }
{
    let prefix = e.prefix;
    let k = e.length;
    let gaps = e.gaps;
    let n = e.gap_count;
    let positions = d.positions;
    let number = usize::from(d.count);
    let deletion = Deletion {
        prefix,
        length: k,
        positions,
        position_count: number,
        gap_count: n,
        m,
    };
    let Some(lost) = irreversible(patterns, needs, &gaps, deletion) else {
        return None;
    };
    least_lost(patterns, needs, deletion, lost)
}

// How many cells are compared for one entry: those of totals below m.
pub fn compared_with(m: usize, e: Entry) -> usize
    requires { (m ≤ DIGITS) × ProperEntry (entry_in e) }
    ensures { ComparedAnswer m (entry_in e) result }
{
    let k = e.length;
    let gaps = e.gaps;
    let n = e.gap_count;
    let rule = e.rule;
    match rule {
        Rule::Expand => 0,
        Rule::Delete(_) => compared_count(m, k, &gaps, n),
    }
}
