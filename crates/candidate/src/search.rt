// The candidate search: whether a deletion loses a member of the shorter cell, and at which spacing
// it first does. For each spacing and pattern there is one word to look at: the prefix at the
// spacing, followed by the rest that the pattern's last entries make.
ghost use Rattle.std.specs.Prelude.{◌≡◌, true, false, not, List, [], get_or, ℕ, ◌+◌, ◌≤◌, ◌<◌, length, take};
ghost use Rattle.word.specs.Ceilings.{DIGITS, PATTERNS, PREFIX, TOTAL};
ghost use Rattle.word.specs.Word.{avoids};
ghost use Rattle.cell.specs.Cell.{total};
ghost use Rattle.cell.specs.Candidate.{hit};
ghost use Rattle.forms.specs.SetMemory.{held_in};
ghost use Rattle.forms.specs.GapRows.{gaps_of, HasVectors};
ghost use Rattle.placing.specs.Lookup.{NEEDS};
ghost use Rattle.candidate.specs.Ready.{Ready, AllNeeds, Violates, Given, SpacingAnswer, FreeAnswer, TotalAnswer, EntryAnswer};

use crate::needed::need_at;
use containment::{any_in, stands_in};
use forms::memory::Pattern;
use placing::placing::{Placing, placed};
use placing::tables::{Tables, VALUES, candidate_word, deleted_values, levels_of};
use spacing::{first_spacing, is_free, next_spacing};
use word::limits::{COMPONENTS, DIGITS, PREFIX};

// A deletion from an entry's prefix: the prefix, the deleted positions, how many gap vectors the
// entry has, and m, below which the totals of the compared spacings lie.
#[derive(Clone, Copy)]
pub struct Deletion {
    pub prefix: [u8; PREFIX],
    pub length: usize,
    pub positions: [u8; PREFIX],
    pub position_count: usize,
    pub gap_count: usize,
    pub m: usize,
}

// What the search keeps of a deletion: the prefix, the deleted values flagged in the place of the
// positions, and how many gap vectors there are.
#[derive(Clone, Copy)]
struct Deleted {
    prefix: [u8; PREFIX],
    length: usize,
    gone: [u8; VALUES],
    gap_count: usize,
}

// The same at the spacings of one total.
#[derive(Clone, Copy)]
struct OfTotal {
    deleted: Deleted,
    total: usize,
}

// The same at one spacing, with its total.
#[derive(Clone, Copy)]
struct At {
    deleted: Deleted,
    spacing: [u8; COMPONENTS],
    total: usize,
}

// A violation: the spacing, and its total.
#[derive(Clone, Copy)]
pub struct Lost {
    pub total: usize,
    pub spacing: [u8; COMPONENTS],
}

// Whether the pattern's head can be placed in the prefix, a deleted value among its places, where
// its last t entries are the rest.
pub fn hits(pattern: &[u8], t: usize, prefix: &[u8], tables: Tables) -> bool
    requires { length pattern.now ≤ DIGITS }
    ensures { (R g : List ℕ) → Ready prefix.now R g pattern.now tables.levels tables.gone
        tables.need → total g ≡ t → result ≡ hit prefix.now R g pattern.now }
{
    if pattern.len() <= t {
        return false;
    }
    let start = Placing {
        placed: 0,
        from: 0,
        used: false,
    };
    placed(
        [0u8; DIGITS],
        &pattern[..pattern.len() - t],
        prefix,
        start,
        tables,
    )
}

// Whether the word contains a pattern. The one at place i, of which the word is made, is the
// likeliest, and is tried first.
pub fn contained_by(patterns: &[Pattern], i: usize, w: &[u8]) -> bool
    requires { i < length patterns.now }
    ensures { result ≡ not (avoids (held_in patterns.now) w.now) }
{
    stands_in(&patterns[i], w) || any_in(patterns, w)
}

// What is looked up at a spacing for every pattern: the prefix, its deleted values, the levels of
// its values, and the total.
#[derive(Clone, Copy)]
pub struct Spot {
    pub prefix: [u8; PREFIX],
    pub length: usize,
    pub gone: [u8; VALUES],
    pub levels: [u8; VALUES],
    pub total: usize,
}

// Whether the pattern at place i violates the deletion at the spacing.
pub fn violates(patterns: &[Pattern], needs: &[u8], spot: &Spot, i: usize) -> bool
    requires { (length patterns.now ≤ PATTERNS) × (i < length patterns.now) × (spot.now.length ≤ PREFIX) ×
        (spot.now.total < DIGITS) × (length needs.now ≡ NEEDS) }
    ensures { Violates (held_in patterns.now) needs.now (take spot.now.length spot.now.prefix)
        spot.now.gone spot.now.levels spot.now.total i result ×
        (result ≡ true → spot.now.total < length (get_or (held_in patterns.now) i [])) }
{
    let prefix = &spot.prefix[..spot.length];
    let t = spot.total;
    let pattern = patterns[i].as_slice();
    if pattern.len() <= t {
        return false;
    }
    let need = need_at(needs, t, i);
    let tables = Tables {
        need,
        levels: spot.levels,
        gone: spot.gone,
    };
    if !hits(pattern, t, prefix, tables) {
        return false;
    }
    let w = candidate_word(prefix, pattern, t, tables);
    !contained_by(patterns, i, &w.entries[..w.length])
}

// Whether some pattern violates the deletion at the spacing.
fn spacing_violated(patterns: &[Pattern], needs: &[u8], at: At) -> bool
    requires { (length patterns.now ≤ PATTERNS) × (at.deleted.length ≤ PREFIX) ×
        (total (take (at.deleted.length + 1) at.spacing) ≤ TOTAL) × (at.total < DIGITS) ×
        (length needs.now ≡ NEEDS) }
    ensures { SpacingAnswer (held_in patterns.now) needs.now
        (take at.deleted.length at.deleted.prefix) at.deleted.gone
        (take (at.deleted.length + 1) at.spacing) at.total result }
{
    let d = at.deleted;
    let g = at.spacing;
    let prefix = d.prefix;
    let gone = d.gone;
    let levels = levels_of(&g[..d.length + 1]);
    let spot = Spot {
        prefix,
        length: d.length,
        gone,
        levels,
        total: at.total,
    };
    for i in 0..patterns.len() {
        if violates(patterns, needs, &spot, i) {
            return true;
        }
    }
    false
}

// Whether the spacing is at least no gap vector, and some pattern violates the deletion there.
fn free_and_violated(patterns: &[Pattern], needs: &[u8], gaps: &[u8], at: At) -> bool
    requires { (length patterns.now ≤ PATTERNS) × (at.deleted.length ≤ PREFIX) ×
        (total (take (at.deleted.length + 1) at.spacing) ≤ TOTAL) × (at.total < DIGITS) ×
        (length needs.now ≡ NEEDS) × HasVectors gaps.now at.deleted.gap_count }
    ensures { FreeAnswer (held_in patterns.now) needs.now
        (take at.deleted.length at.deleted.prefix) at.deleted.gone
        (gaps_of gaps.now (at.deleted.length + 1) at.deleted.gap_count)
        (take (at.deleted.length + 1) at.spacing) at.total result }
{
    let d = at.deleted;
    let g = at.spacing;
    if !is_free(gaps, d.gap_count, d.length, g) {
        return false;
    }
    spacing_violated(patterns, needs, at)
}

// The first spacing of the total that is at least no gap vector and has a violation: the spacings
// in lexicographic order.
fn total_violated(patterns: &[Pattern], needs: &[u8], gaps: &[u8], of: OfTotal) -> Option<Lost>
    requires { (length patterns.now ≤ PATTERNS) × (of.deleted.length ≤ PREFIX) × (of.total < DIGITS) ×
        AllNeeds (held_in patterns.now) needs.now × HasVectors gaps.now of.deleted.gap_count }
    ensures { TotalAnswer (held_in patterns.now) (take of.deleted.length of.deleted.prefix)
        of.deleted.gone (gaps_of gaps.now (of.deleted.length + 1) of.deleted.gap_count)
        of.deleted.length of.total result }
{
    let deleted = of.deleted;
    let t = of.total;
    let k = deleted.length;
    let mut g = first_spacing(k, t as u8);
    'spacings: loop {
        let at = At {
            deleted,
            spacing: g,
            total: t,
        };
        if free_and_violated(patterns, needs, gaps, at) {
            return Some(Lost {
                total: t,
                spacing: g,
            });
        }
        let Some(next) = next_spacing(g, k) else {
            return None;
        };
        g = next;
    }
}

// The first compared spacing at which the deletion loses a member of the shorter cell: by rising
// total, and in lexicographic order within a total.
pub fn irreversible(
    patterns: &[Pattern],
    needs: &[u8],
    gaps: &[u8],
    deletion: Deletion,
) -> Option<Lost>
    requires { AllNeeds (held_in patterns.now) needs.now × (deletion.length ≤ PREFIX) ×
        (deletion.position_count ≤ PREFIX) × (deletion.m ≤ DIGITS) × HasVectors gaps.now deletion.gap_count ×
        Given (held_in patterns.now) (take deletion.length deletion.prefix)
        (take deletion.position_count deletion.positions) }
    ensures { EntryAnswer deletion.m (held_in patterns.now) (take deletion.length deletion.prefix)
        (gaps_of gaps.now (deletion.length + 1) deletion.gap_count)
        (take deletion.position_count deletion.positions) result }
{
    let prefix = deletion.prefix;
    let k = deletion.length;
    let positions = deletion.positions;
    let gone = deleted_values(&prefix[..k], &positions[..deletion.position_count]);
    let deleted = Deleted {
        prefix,
        length: k,
        gone,
        gap_count: deletion.gap_count,
    };
    for t in 0..deletion.m {
        let of = OfTotal { deleted, total: t };
        if let Some(lost) = total_violated(patterns, needs, gaps, of) {
            return Some(lost);
        }
    }
    None
}
