// The levels that the head entries of the patterns of a set need, for every total: worked out once
// for a set, and looked up in the search.
ghost use Rattle.std.specs.Prelude.{◌≡◌, ◌-◌, ◌≤◌, ◌<◌, length, drop};
ghost use Rattle.word.specs.Ceilings.{DIGITS, PATTERNS};
ghost use Rattle.word.specs.Word.{under};
ghost use Rattle.placing.specs.Lookup.{NEEDS, need_at};
ghost use Rattle.forms.specs.SetMemory.{held_in};
ghost use Rattle.candidate.specs.Ready.{AllNeeds};

use forms::memory::Pattern;
use placing::tables::{VALUES, at_most};
use word::limits::{DIGITS, PATTERNS};

// for each pattern, each total below DIGITS and each value one byte
pub const NEEDS: usize = PATTERNS * DIGITS * VALUES;

// The level that a head entry x of a pattern needs: how many of the pattern's last t entries are at
// most as large. For a shorter pattern anything.
fn level_needed(pattern: &[u8], t: usize, x: u8) -> u8
    requires { length pattern.now ≤ DIGITS }
    ensures { t ≤ length pattern.now → result ≡ under (drop (length pattern.now - t) pattern.now) x }
{
    if pattern.len() < t {
        return 0;
    }
    at_most(&pattern[pattern.len() - t..], x)
}

// The level that each head entry of each pattern needs, for every total: the patterns in their
// order, for each the totals, for each the values.
pub fn all_needs(patterns: &[Pattern]) -> [u8; NEEDS]
    requires { length patterns.now ≤ PATTERNS }
    ensures { AllNeeds (held_in patterns.now) result }
{
    let mut needs = [0u8; NEEDS];
    for at in 0..patterns.len() * (DIGITS * VALUES) {
        let i = at / (DIGITS * VALUES);
        let t = at / VALUES % DIGITS;
        let x = (at % VALUES) as u8;
        needs[at] = level_needed(patterns[i].as_slice(), t, x);
    }
    needs
}

// The levels for one total and the pattern at place i.
pub fn need_at(needs: &[u8], t: usize, i: usize) -> [u8; VALUES]
    requires { (length needs.now ≡ NEEDS) × (t < DIGITS) × (i < PATTERNS) }
    ensures { result ≡ need_at needs.now t i }
{
    let from = (i * DIGITS + t) * VALUES;
    let mut need = [0u8; VALUES];
    need.copy_from_slice(&needs[from..from + VALUES]);
    need
}
