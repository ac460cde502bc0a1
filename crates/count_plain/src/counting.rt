// The count by plain evaluation.
ghost use Rattle.std.specs.Prelude.{◌≡◌, ◌≤◌};
ghost use Rattle.word.specs.Ceilings.{PLAIN_LENGTH};
ghost use Rattle.forms.specs.SetMemory.{held_in};
ghost use Rattle.forms.specs.SchemeMemory.{scheme_in};
ghost use Rattle.verdict.specs.Truth.{WellFormed, AllTrue};
ghost use Rattle.verdict.specs.Value.{count_of};

use crate::evaluation::cell;
use count_plan::sheet::{SHEET, fill_sheet};
use forms::memory::{Pattern, Scheme};
use word::limits::COMPONENTS;

// The count for n of a scheme that is accepted for the patterns, without a table.
pub fn plain_count(patterns: &[Pattern], s: Scheme, n: usize) -> u64
    requires { (n ≤ PLAIN_LENGTH) × WellFormed (held_in patterns.now) (scheme_in s) ×
        AllTrue (held_in patterns.now) (scheme_in s) }
    ensures { result ≡ count_of (held_in patterns.now) (scheme_in s) n }
{
    let mut sheet = [0u8; SHEET];
    let root = fill_sheet(&mut sheet, patterns, s);
    let mut g = [0u8; COMPONENTS];
    g[0] = n as u8;
    cell(&sheet, root, g, n)
}
