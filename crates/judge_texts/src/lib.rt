// Judging two texts: the set's text, then the scheme's, then the claims; with a lent page, and
// without one.
#![tactic(auto)]

ghost use Rattle.std.specs.Prelude.{◌≡◌};
ghost use Rattle.judge_texts.specs.TextJudgement.{JudgesTexts, JudgesTextsWithoutPage, JudgesAndReads, IsReadWell, verdict_read};

use forms::memory::{Patterns, Scheme};
use judge::judging::{judge_claims, show_lost};
use notation::patterns::read_patterns;
use notation::schemes::read_scheme;
use word::limits::PAGE;
use word::refusal::{Refusal, Refused};

// The verdict on two texts, and what they were read as.
#[derive(Clone, Copy)]
pub struct TextsJudged {
    pub verdict: Result<usize, Refused>,
    pub patterns: Result<Patterns, Refused>,
    pub scheme: Result<Scheme, Refused>,
}

// Judges the scheme that one text spells for the patterns that another spells. The texts may have
// any length and content. The lists went through their tests while they were read, so only their
// claims are judged. With refusal 11 the page begins with a witness for the refused entry
// afterwards; a page of fewer than PAGE bytes is refused before the texts are looked at.
pub fn judge_texts(patterns: &[u8], scheme: &[u8], page: &mut [u8]) -> Result<usize, Refused>
    ensures { JudgesTexts patterns.now scheme.now page.old page.new result }
{
    if page.len() < PAGE {
        return Err(Refusal::ShortPage.at(0));
    }
    let p = read_patterns(patterns);
    let s = read_scheme(scheme);
    let set = p?;
    let list = s?;
    let judged = judge_claims(set, list);
    show_lost(set, judged.word, page);
    judged.verdict
}

// The same without a page.
pub fn judge_texts_without_page(patterns: &[u8], scheme: &[u8]) -> Result<usize, Refused>
    ensures { JudgesTextsWithoutPage patterns.now scheme.now result }
{
    let p = read_patterns(patterns);
    let s = read_scheme(scheme);
    judge_read(p, s)
}

// The same, with the lists that were read. A caller who needs the verdict alone is spared a copy of
// the scheme by judge_texts_without_page.
pub fn read_and_judge(patterns: &[u8], scheme: &[u8]) -> TextsJudged
    ensures { JudgesAndReads patterns.now scheme.now result }
{
    let p = read_patterns(patterns);
    let s = read_scheme(scheme);
    let verdict = judge_read(p, s);
    TextsJudged {
        verdict,
        patterns: p,
        scheme: s,
    }
}

// The verdict on what was read: the patterns are judged before the scheme.
fn judge_read(
    patterns: Result<Patterns, Refused>,
    scheme: Result<Scheme, Refused>,
) -> Result<usize, Refused>
    requires { IsReadWell patterns scheme }
    ensures { result ≡ verdict_read patterns scheme }
{
    let set = patterns?;
    let list = scheme?;
    judge_claims(set, list).verdict
}
