// Reading and writing a set of patterns.
ghost use Rattle.std.specs.Prelude.{◌≡◌};
ghost use Rattle.forms.specs.SchemeMemory.{patterns_in};
ghost use Rattle.notation.specs.PatternAnswers.{patterns_answer, ReadsPatterns, WritesPatterns};

use forms::memory::Patterns;
use set_tests::patterns_fault;
use text_patterns::pattern_reader::load_patterns;
use text_writer::writing::put_patterns;
use word::limits::PATTERN_TEXT;
use word::refusal::{Refusal, Refused};

// Reads a set of patterns. A text of more than 1,024 bytes is refused with 2, one that spells no
// set with 1; then the tests 2 to 4.
pub fn read_patterns(text: &[u8]) -> Result<Patterns, Refused>
    ensures { (result ≡ patterns_answer text.now) × ReadsPatterns text.now result }
{
    if PATTERN_TEXT < text.len() {
        return Err(Refusal::Oversize.at(0));
    }
    let Some(patterns) = load_patterns(text) else {
        return Err(Refusal::Misspelt.at(0));
    };
    patterns_fault(patterns)?;
    Ok(patterns)
}

// Writes a set of patterns at the start of the page: the tests 2 to 4, then 13; the number of
// bytes. A refused call leaves the page as it is.
pub fn write_patterns(s: Patterns, page: &mut [u8]) -> Result<usize, Refused>
    ensures { WritesPatterns (patterns_in s) page.old page.new result }
{
    patterns_fault(s)?;
    let length = put_patterns(&mut page[..0], 0, s);
    if page.len() < length {
        return Err(Refusal::ShortPage.at(0));
    }
    put_patterns(page, 0, s);
    Ok(length)
}
