// The plain evaluation: the scheme is judged, then n. There is no table.
ghost use Rattle.std.specs.Prelude.{◌≡◌, ◌≤◌};
ghost use Rattle.word.specs.Ceilings.{PLAIN_LENGTH};
ghost use Rattle.word.specs.Finding.{first_fault};
ghost use Rattle.forms.specs.SchemeMemory.{patterns_in, scheme_in, fault_of};
ghost use Rattle.verdict.specs.Truth.{WellFormed, AllTrue};
ghost use Rattle.verdict.specs.Value.{count_of};
ghost use Rattle.count_answer.specs.Counting.{length_tests, PlainCounts};

use count_plain::counting::plain_count;
use forms::memory::{Patterns, Scheme};
use judge::judging::judge_without_page;
use word::limits::PLAIN_LENGTH;
use word::refusal::{Refusal, Refused};

// The number of permutations of 1 to n that avoid the patterns, n up to PLAIN_LENGTH, without a
// table. Nothing is asked of the caller.
pub fn count_plainly(patterns: Patterns, scheme: Scheme, n: usize) -> Result<u64, Refused>
    ensures { PlainCounts (patterns_in patterns) (scheme_in scheme) n result }
{
    judge_without_page(patterns, scheme)?;
    length_fault(n)?;
    let value = evaluated(patterns, scheme, n);
    Ok(value)
}

// "a plain evaluation for n up to 9 (above it 2)" (01)
fn length_fault(n: usize) -> Result<(), Refused>
    ensures { result ≡ fault_of (first_fault (length_tests n)) }
{
    if PLAIN_LENGTH < n {
        return Err(Refusal::Oversize.at(0));
    }
    Ok(())
}

// The count of an accepted scheme.
fn evaluated(patterns: Patterns, scheme: Scheme, n: usize) -> u64
    requires { (n ≤ PLAIN_LENGTH) × WellFormed (patterns_in patterns) (scheme_in scheme) ×
        AllTrue (patterns_in patterns) (scheme_in scheme) }
    ensures { result ≡ count_of (patterns_in patterns) (scheme_in scheme) n }
{
    plain_count(patterns.as_slice(), scheme, n)
}
