// The gap vectors of an entry: whether the cell at one of them is not empty.
ghost use Rattle.std.specs.Prelude.{◌≡◌, true, not, suc, ◌+◌, ◌≤◌, ◌<◌, length, take, leb};
ghost use Rattle.word.specs.Ceilings.{PREFIX, COMPONENTS, TOTAL};
ghost use Rattle.word.specs.Word.{is_perm};
ghost use Rattle.cell.specs.Cell.{total, cell};
ghost use Rattle.forms.specs.SetMemory.{held_in};
ghost use Rattle.forms.specs.SchemeMemory.{gap_in};
ghost use Rattle.verdict.specs.Verdict.{is_empty};
ghost use Rattle.claims.specs.EmptyBelow.{shows_empty, empty_at, empty_below};

use completion::completable;
use forms::memory::{Gap, Pattern};
use placing::tables::{kept, levels_of};
use spacing::{at_least, first_spacing, next_spacing};
use word::limits::{COMPONENTS, DIGITS, PREFIX, TOTAL};

// A flag for each value from 0 to DIGITS.
const FLAGS: usize = DIGITS + 1;

// A prefix, its length, and the components of one of its gap vectors.
#[derive(Clone, Copy)]
struct PrefixGap {
    prefix: [u8; PREFIX],
    length: usize,
    parts: [u8; COMPONENTS],
}

// The components of a gap vector.
fn parts_of(b: Gap) -> [u8; COMPONENTS]
    ensures { (result ≡ b.parts) × (length result ≡ COMPONENTS) }
{
    b.parts
}

// Whether the cell of the prefix at the gap vector is not empty. Smaller vectors are tried first:
// by the gap law the cell is empty if one of theirs is, and that shows sooner.
pub fn is_live(patterns: &[Pattern], prefix: [u8; PREFIX], k: usize, b: Gap) -> bool
    requires { (k ≤ PREFIX) × (is_perm (take k prefix) ≡ true) × (b.width ≡ suc k) × (total (gap_in b) ≤ TOTAL) }
    ensures { result ≡ not (is_empty (cell (held_in patterns.now) (take k prefix) (gap_in b))) }
{
    let parts = parts_of(b);
    if has_empty_below(patterns, prefix, k, parts) {
        return false;
    }
    is_live_at(patterns, prefix, k, parts)
}

// Whether the cell at the spacing is not empty: whether its first entries can be completed to an
// avoider.
fn is_live_at(patterns: &[Pattern], prefix: [u8; PREFIX], k: usize, parts: [u8; COMPONENTS]) -> bool
    requires { (k ≤ PREFIX) × (is_perm (take k prefix) ≡ true) × (total (take (k + 1) parts) ≤ TOTAL) }
    ensures { result ≡ not (is_empty (cell (held_in patterns.now) (take k prefix) (take (k + 1) parts))) }
{
    let levels = levels_of(&parts[..k + 1]);
    let w = kept(&prefix[..k], levels, [0u8; FLAGS]);
    let entries = w.entries;
    let n = k + usize::from(levels[k]) + usize::from(parts[k]);
    completable(patterns, entries, k, n)
}

// Whether a vector of a smaller total that is at most this one has an empty cell: by rising total.
fn has_empty_below(
    patterns: &[Pattern],
    prefix: [u8; PREFIX],
    k: usize,
    parts: [u8; COMPONENTS],
) -> bool
    requires { (k ≤ PREFIX) × (is_perm (take k prefix) ≡ true) × (total (take (k + 1) parts) ≤ TOTAL) }
    ensures { result ≡ empty_below (held_in patterns.now) (take k prefix) (take (k + 1) parts) k }
{
    let at = PrefixGap {
        prefix,
        length: k,
        parts,
    };
    for t in 0..TOTAL {
        if is_at_most(parts, k, t) {
            return false;
        }
        if has_empty(patterns, at, t) {
            return true;
        }
    }
    false
}

// Whether the total of the first k + 1 components is at most t.
fn is_at_most(parts: [u8; COMPONENTS], k: usize, t: usize) -> bool
    requires { k ≤ PREFIX }
    ensures { result ≡ leb (total (take (k + 1) parts)) t }
{
    let mut sum: usize = 0;
    for i in 0..k + 1 {
        sum += usize::from(parts[i]);
    }
    sum <= t
}

// Whether a vector of total t that is at most this one has an empty cell.
fn has_empty(patterns: &[Pattern], at: PrefixGap, t: usize) -> bool
    requires { (at.length ≤ PREFIX) × (is_perm (take at.length at.prefix) ≡ true) × (t ≤ TOTAL) }
    ensures { result ≡ empty_at (held_in patterns.now) (take at.length at.prefix)
        (take (at.length + 1) at.parts) at.length t }
{
    let k = at.length;
    let mut g = first_spacing(k, t as u8);
    'spacings: loop {
        if is_empty_below(patterns, at, g) {
            return true;
        }
        let Some(next) = next_spacing(g, k) else {
            return false;
        };
        g = next;
    }
}

// Whether the vector g is at most this one and has an empty cell.
fn is_empty_below(patterns: &[Pattern], at: PrefixGap, g: [u8; COMPONENTS]) -> bool
    requires { (at.length ≤ PREFIX) × (is_perm (take at.length at.prefix) ≡ true) × (total (take (at.length + 1) g) ≤ TOTAL) }
    ensures { result ≡ shows_empty (held_in patterns.now) (take at.length at.prefix)
        (take (at.length + 1) at.parts) (take (at.length + 1) g) }
{
    let k = at.length;
    let parts = at.parts;
    if !at_least(parts, g, k) {
        return false;
    }
    let prefix = at.prefix;
    !is_live_at(patterns, prefix, k, g)
}
