// The call from C: "it calls the judge with two texts" (01).
#![tactic(auto)]

ghost use Rattle.std.specs.Prelude.{◌≡◌};
ghost use Rattle.verdict.specs.Verdict.{told_verdict};
ghost use Rattle.kernel.specs.Call.{Called};

use judge_texts::judge_texts_without_page;
use word::refusal::Refused;

// Judges the scheme that one text spells for the patterns that another spells: 0 where it is
// accepted, else the number of the refusal.
#[unsafe(no_mangle)]
pub extern "C" fn judge(patterns: &[u8], scheme: &[u8]) -> u32
    ensures { Called patterns.now scheme.now result }
{
    let verdict = judge_texts_without_page(patterns, scheme);
    refusal_number(verdict)
}

// The number of a refusal, and 0 for an acceptance.
fn refusal_number(verdict: Result<usize, Refused>) -> u32
    ensures { result ≡ (told_verdict verdict).number }
{
    match verdict {
        Ok(_) => 0,
        Err(refused) => u32::from(u8::from(refused.refusal)),
    }
}
