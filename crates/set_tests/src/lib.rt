// The tests 2 to 4 of a pattern list in memory.
#![tactic(auto)]

ghost use Rattle.std.specs.Prelude.{ℕ, List, Bool, ◌≤◌, ◌<◌, ◌≡◌, not, [], length, ltb};
ghost use Rattle.word.specs.Ceilings.{DIGITS, PATTERNS};
ghost use Rattle.word.specs.Patterns.{is_pattern};
ghost use Rattle.word.specs.Finding.{first_fault};
ghost use Rattle.word.specs.declared.refusal.Refusal.TheVariants.{Oversize, NoPermutation};
ghost use Rattle.cell.specs.Basis.{same};
ghost use Rattle.scheme.specs.WellFormed.{first_at, first_twin, listed, pattern_tests};
ghost use Rattle.forms.specs.SchemeMemory.{pattern_in, patterns_in, fault_of};
ghost use Rattle.scheme.specs.TestOrder.{place_in};
ghost use Rattle.set_tests.specs.Twin.{nearest_twin, place_before};
ghost use Rattle.forms.specs.declared.memory.Pattern.{Pattern};

use forms::memory::{Pattern, Patterns};
use word::limits::{DIGITS, PATTERNS};
use word::permutation::is_permutation;
use word::refusal::{Refusal, Refused};

// What the tests 2 to 4 find in a pattern list: the first fault in their order.
pub fn patterns_fault(s: Patterns) -> Result<(), Refused>
    ensures { result ≡ fault_of (first_fault (pattern_tests (patterns_in s))) }
{
    if PATTERNS < s.count {
        return Err(Refusal::Oversize.at(0));
    }
    first_with(s, Refusal::Oversize, |p| too_long(p))?;
    first_with(s, Refusal::NoPermutation, |p| no_pattern(p))?;
    first_twin(s)
}

// The tests 2 and 3 of the items: the first one at which a test fails.
fn first_with<F: Fn(Pattern) -> bool>(s: Patterns, why: Refusal, fails: F) -> Result<(), Refused>
where
    F: Drop,
    requires few { s.count ≤ PATTERNS }
    requires callable { F.IsAlwaysCallable fails }
    ensures { (f : List ℕ → Bool) → ((p : Pattern) (b : Bool) → F.post fails p b → b ≡ f (pattern_in p)) →
        result ≡ fault_of (first_at why f 0 (patterns_in s)) }
{
    for i in 0..s.count {
        if fails(s.items[i]) {
            return Err(why.at(i));
        }
    }
    Ok(())
}

// Whether a pattern has too many digits.
fn too_long(p: Pattern) -> bool
    ensures { result ≡ ltb DIGITS (length (pattern_in p)) }
{
    DIGITS < p.length
}

// Whether the digits are no pattern. A length beyond the array stands for digits with a 0 among
// them.
fn no_pattern(p: Pattern) -> bool
    ensures { result ≡ not (is_pattern (pattern_in p)) }
{
    if p.length == 0 {
        return true;
    }
    if DIGITS < p.length {
        return true;
    }
    !is_permutation(p.as_slice())
}

// Test 4: the first item that an earlier one equals.
fn first_twin(s: Patterns) -> Result<(), Refused>
    requires { s.count ≤ PATTERNS }
    ensures { result ≡ fault_of (first_twin listed 0 [] (patterns_in s)) }
{
    for i in 0..s.count {
        if earlier_twin(s, i).is_some() {
            return Err(Refusal::Repeated.at(i));
        }
    }
    Ok(())
}

// The place of the nearest earlier item that equals the one at i.
fn earlier_twin(s: Patterns, i: usize) -> Option<usize>
    requires { i < PATTERNS }
    ensures { result ≡ place_before i (nearest_twin (λ j. same (place_in s i) (place_in s j)) i) }
{
    let p = s.items[i];
    for j in (0..i).rev() {
        if same_digits(p, s.items[j]) {
            return Some(j);
        }
    }
    None
}

// Whether two patterns have the same digits.
fn same_digits(p: Pattern, q: Pattern) -> bool
    ensures { result ≡ same (pattern_in p) (pattern_in q) }
{
    p.length == q.length && p.as_slice() == q.as_slice()
}
