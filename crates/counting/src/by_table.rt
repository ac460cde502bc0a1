// Counting by the table: the scheme is judged, then n, then the table.
ghost use Rattle.std.specs.Prelude.{◌≡◌, length};
ghost use Rattle.forms.specs.SchemeMemory.{patterns_in, scheme_in};
ghost use Rattle.verdict.specs.Truth.{WellFormed, AllTrue};
ghost use Rattle.count_plan.specs.Layout.{need_of};
ghost use Rattle.count_answer.specs.Counting.{table_after, Counts};
ghost use Rattle.counting.specs.AllCounts.{AllCounted, refusal_of};

use crate::values::{all_counts, last_count};
use count_answer::measure::measured;
use forms::memory::{Patterns, Scheme};
use judge::judging::judge_without_page;
use spacing::binomials::binomials;
use word::limits::COUNTS;
use word::refusal::Refused;

// The number of permutations of 1 to n that avoid the patterns, by a scheme that is judged first.
// Nothing is asked of the caller.
pub fn count(
    patterns: Patterns,
    scheme: Scheme,
    n: usize,
    table: &mut [u64],
) -> Result<u64, Refused>
    ensures { Counts (patterns_in patterns) (scheme_in scheme) n table.old table.new result }
{
    judge_without_page(patterns, scheme)?;
    let b = binomials();
    let m = measured(scheme, n, table.len(), &b)?;
    let last = last_count(patterns, scheme, m, &b, table);
    Ok(last)
}

// The counts for the lengths from 0 to n of an accepted scheme, in one pass; the table as after a
// count.
pub fn count_all(
    patterns: Patterns,
    scheme: Scheme,
    n: usize,
    table: &mut [u64],
) -> Result<[u64; COUNTS], Refused>
    requires { WellFormed (patterns_in patterns) (scheme_in scheme) × AllTrue (patterns_in patterns) (scheme_in scheme) }
    ensures counts { AllCounted (patterns_in patterns) (scheme_in scheme) n (length table.old) result }
    ensures table { table.new ≡ table_after (refusal_of result) (need_of n (scheme_in scheme)) table.old }
{
    let b = binomials();
    let m = measured(scheme, n, table.len(), &b)?;
    let counts = all_counts(patterns, scheme, m, &b, table);
    Ok(counts)
}
