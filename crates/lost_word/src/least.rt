// The least word that a deletion loses at one spacing. All patterns are looked at: the word of the
// first that violates need not be the least.
ghost use Rattle.std.specs.Prelude.{◌≡◌, ◌+◌, ◌≤◌, ◌<◌, length, take, replicate};
ghost use Rattle.std.proofs.Math.Option.{none};
ghost use Rattle.word.specs.Ceilings.{DIGITS, PATTERNS, PREFIX};
ghost use Rattle.word.specs.Word.{before};
ghost use Rattle.cell.specs.Cell.{total};
ghost use Rattle.cell.specs.Candidate.{lost_words, least_of};
ghost use Rattle.forms.specs.SetMemory.{held_in};
ghost use Rattle.placing.specs.Lookup.{VALUES, NEEDS};
ghost use Rattle.placing.specs.Tabled.{IsCandidate};
ghost use Rattle.candidate.specs.Ready.{AllNeeds, Given};
ghost use Rattle.lost_word.specs.Shown.{ShowsWord, IsShort, shown, lesser_shown, WordAnswer};

use candidate::needed::need_at;
use candidate::search::{Deletion, Lost, Spot, violates};
use forms::memory::Pattern;
use placing::tables::{Tables, VALUES, Word, candidate_word, deleted_values, levels_of};

// Whether a comes before b in lexicographic order.
fn comes_before(a: &[u8], b: &[u8]) -> bool
    ensures { result ≡ before a.now b.now }
{
    a < b
}

// The lesser of two words, either of which may be missing.
fn lesser_word(best: Option<Word>, next: Option<Word>) -> Option<Word>
    requires { IsShort best × IsShort next }
    ensures { (shown result ≡ lesser_shown (shown best) (shown next)) × IsShort result }
{
    let Some(w) = next else {
        return best;
    };
    let Some(v) = best else {
        return next;
    };
    if comes_before(&w.entries[..w.length], &v.entries[..v.length]) {
        next
    } else {
        best
    }
}

// The word of a pattern with the deleted positions put back: no value of the prefix is gone.
fn whole_word(prefix: &[u8], pattern: &[u8], t: usize, tables: Tables) -> Word
    requires { (length prefix.now ≤ PREFIX) × (t ≤ length pattern.now) × (length pattern.now ≤ DIGITS) }
    ensures { (result.length ≤ PREFIX + DIGITS) × IsCandidate prefix.now tables.levels
        (replicate VALUES 0) pattern.now t tables.need (take result.length result.entries) }
{
    let need = tables.need;
    let levels = tables.levels;
    let gone = [0u8; VALUES];
    let whole = Tables { need, levels, gone };
    candidate_word(prefix, pattern, t, whole)
}

// The word of the pattern at place i, if the pattern violates the deletion at the spacing.
fn violating_word(patterns: &[Pattern], needs: &[u8], spot: &Spot, i: usize) -> Option<Word>
    requires { (length patterns.now ≤ PATTERNS) × (i < length patterns.now) × (spot.now.length ≤ PREFIX) ×
        (spot.now.total < DIGITS) × (length needs.now ≡ NEEDS) }
    ensures { IsShort result × WordAnswer (held_in patterns.now) needs.now
        (take spot.now.length spot.now.prefix) spot.now.gone spot.now.levels spot.now.total i result }
{
    if !violates(patterns, needs, spot, i) {
        return None;
    }
    let need = need_at(needs, spot.total, i);
    let tables = Tables {
        need,
        levels: spot.levels,
        gone: spot.gone,
    };
    let prefix = &spot.prefix[..spot.length];
    let pattern = patterns[i].as_slice();
    Some(whole_word(prefix, pattern, spot.total, tables))
}

// The least word that the deletion loses at the spacing, with the deleted positions put back.
pub fn least_lost(
    patterns: &[Pattern],
    needs: &[u8],
    deletion: Deletion,
    lost: Lost,
) -> Option<Word>
    requires { AllNeeds (held_in patterns.now) needs.now × (deletion.length ≤ PREFIX) ×
        (deletion.position_count ≤ PREFIX) × Given (held_in patterns.now) (take deletion.length deletion.prefix)
        (take deletion.position_count deletion.positions) × (lost.total < DIGITS) ×
        (total (take (deletion.length + 1) lost.spacing) ≡ lost.total) }
    ensures { ShowsWord (least_of none (lost_words (held_in patterns.now)
        (take deletion.length deletion.prefix) (take deletion.position_count deletion.positions)
        (take (deletion.length + 1) lost.spacing))) result }
{
    let prefix = deletion.prefix;
    let k = deletion.length;
    let positions = deletion.positions;
    let spacing = lost.spacing;
    let gone = deleted_values(&prefix[..k], &positions[..deletion.position_count]);
    let levels = levels_of(&spacing[..k + 1]);
    let spot = Spot {
        prefix,
        length: k,
        gone,
        levels,
        total: lost.total,
    };
    let mut best = None;
    for i in 0..patterns.len() {
        let word = violating_word(patterns, needs, &spot, i);
        best = lesser_word(best, word);
    }
    best
}
