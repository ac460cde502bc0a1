// The basis of a pattern set in memory: the patterns that contain no other pattern of the set; and
// the length of the longest pattern of a set.
#![tactic(auto)]

ghost use Rattle.std.specs.Prelude.{◌≤◌, ◌≡◌, not, ◌||◌, length};
ghost use Rattle.word.specs.Word.{contains, longest};
ghost use Rattle.word.specs.Ceilings.{DIGITS, PATTERNS};
ghost use Rattle.cell.specs.Basis.{same, basic};
ghost use Rattle.forms.specs.SetMemory.{held, held_in};
ghost use Rattle.basis.specs.BasisSet.{IsBasis};

use containment::stands_in;
use forms::memory::{Pattern, Patterns};
use word::limits::{DIGITS, PATTERNS};

// Whether the pattern p leaves the pattern q in the basis: p is q, or it does not stand in q.
fn leaves(p: &Pattern, q: &Pattern) -> bool
    ensures { result ≡ same (held p.now) (held q.now) || not (contains (held p.now) (held q.now)) }
{
    p.as_slice() == q.as_slice() || !stands_in(p, q.as_slice())
}

// Whether q contains no other pattern of the set.
pub fn is_basic(patterns: &[Pattern], q: &Pattern) -> bool
    ensures { result ≡ basic (held_in patterns.now) (held q.now) }
{
    patterns.iter().all(|p| leaves(p, q))
}

// The basis of a set of patterns: those that contain no other, in their order.
pub fn basis_of(patterns: &[Pattern]) -> Patterns
    requires { length patterns.now ≤ PATTERNS }
    ensures { IsBasis (held_in patterns.now) result }
{
    let mut items = [Pattern {
        digits: [0u8; DIGITS],
        length: 0,
    }; PATTERNS];
    let mut n: usize = 0;
    for p in patterns {
        if is_basic(patterns, p) {
            items[n] = Pattern {
                digits: p.digits,
                length: p.as_slice().len(),
            };
            n += 1;
        }
    }
    Patterns { items, count: n }
}

// The length of the longest of the patterns, 0 for none.
pub fn longest_length(patterns: &[Pattern]) -> usize
    ensures { (result ≡ longest (held_in patterns.now)) × (result ≤ DIGITS) }
{
    let mut m: usize = 0;
    for pattern in patterns {
        m = m.max(pattern.as_slice().len());
    }
    m
}
