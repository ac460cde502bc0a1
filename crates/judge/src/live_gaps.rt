// Test 10 over all entries, one entry at a time.
ghost use Rattle.std.specs.Prelude.{◌≡◌};
ghost use Rattle.word.specs.declared.refusal.Refusal.TheVariants.{LiveGap};
ghost use Rattle.scheme.specs.WellFormed.{first_at};
ghost use Rattle.forms.specs.SchemeMemory.{scheme_in, fault_of};
ghost use Rattle.forms.specs.SetMemory.{held_in};
ghost use Rattle.verdict.specs.Verdict.{live_gap};
ghost use Rattle.scheme.specs.Proper.{Proper};

use claims::entries::has_live_gap;
use forms::memory::{Pattern, Scheme};
use word::refusal::{Refusal, Refused};

// Test 10: the first entry with a gap vector whose cell is not empty.
pub fn live_fault(patterns: &[Pattern], s: Scheme) -> Result<(), Refused>
    requires { Proper (scheme_in s) }
    ensures { result ≡ fault_of (first_at LiveGap (λ e. live_gap (held_in patterns.now) e.prefix e.gaps) 0 (scheme_in s)) }
{
    for i in 0..s.count {
        if has_live_gap(patterns, s.entries[i]) {
            return Err(Refusal::LiveGap.at(i));
        }
    }
    Ok(())
}
