// What is asked for in two lines, a set of patterns and a length, or what is wrong with them: the
// lines in order.
ghost use Rattle.std.specs.Prelude.{◌≡◌, take, Err};
ghost use Rattle.std.proofs.Math.Option.{none};
ghost use Rattle.forms.specs.SchemeMemory.{fault_of, or_else};
ghost use Rattle.notation.specs.Answers.{read_fault};
ghost use Rattle.notation.specs.PatternAnswers.{patterns_answer};
ghost use Rattle.table_lines.specs.Lines.{number_in};
ghost use Rattle.table_lines.specs.Kept.{memory_of, as_number};
ghost use Rattle.avoider_lines.specs.TwoLines.{is_two};
ghost use Rattle.avoider_lines.specs.LineTests.{length_found, Asks, AsksFor, AsksBy, LengthBy};

use forms::memory::Patterns;
use notation::patterns::read_patterns;
use table_lines::input::{Lines, number_in};
use text_patterns::pattern_reader::no_patterns;
use word::limits::WORD;
use word::refusal::{Refusal, Refused};

// What is asked for: a set and a length.
#[derive(Clone, Copy)]
pub struct Asked {
    pub patterns: Patterns,
    pub length: usize,
}

// What is wrong with the lines, and what they ask for all the same: no patterns and 0 where a line
// does not say.
#[derive(Clone, Copy)]
pub struct Wrong {
    pub refused: Refused,
    pub asked: Asked,
}

// What the lines in memory ask for, or what is wrong with them. The buffers with the two lines are
// lent.
pub fn asked_for(lines: Lines, set: &[u8], second: &[u8]) -> Result<Asked, Wrong>
    ensures { AsksFor (memory_of lines set.now second.now) result }
{
    // a missing line or a third is misspelt, tested before all else
    if !complete(lines) {
        return Err(missing());
    }
    let read = set_in(lines, set);
    let number = length_in(lines, second);
    asked_by(read, number)
}

// Whether the two lines are there and no third.
fn complete(lines: Lines) -> bool
    ensures { result ≡ is_two lines }
{
    if lines.scheme_length == 0 {
        return false;
    }
    if 0 < lines.last_length {
        return false;
    }
    lines.ends < 3
}

// The answer where a line is missing or there is a third.
fn missing() -> Wrong
    ensures { Asks none (Err result) }
{
    let patterns = no_patterns();
    Wrong {
        refused: Refusal::Misspelt.at(0),
        asked: Asked {
            patterns,
            length: 0,
        },
    }
}

// The set in the first line, as far as it was kept.
fn set_in(lines: Lines, set: &[u8]) -> Result<Patterns, Refused>
    ensures { result ≡ patterns_answer (take lines.set_length set.now) }
{
    let n = lines.set_length.min(set.len());
    read_patterns(&set[..n])
}

// The number in the second line, as far as it was kept.
fn length_in(lines: Lines, second: &[u8]) -> Option<usize>
    ensures { result ≡ as_number (number_in (take lines.scheme_length second.now)) }
{
    let n = lines.scheme_length.min(second.len());
    number_in(&second[..n])
}

// What is asked for by the set and the number that were read, also where one of them is refused.
fn asked_by(read: Result<Patterns, Refused>, number: Option<usize>) -> Result<Asked, Wrong>
    ensures { AsksBy read number result }
{
    let patterns = read.unwrap_or(no_patterns());
    let length = number.unwrap_or(0);
    let asked = Asked { patterns, length };
    match fault_by(read, number) {
        Ok(()) => Ok(asked),
        Err(refused) => Err(Wrong { refused, asked }),
    }
}

// What is wrong with the set or the number that were read: the set is judged before the number.
fn fault_by(read: Result<Patterns, Refused>, number: Option<usize>) -> Result<(), Refused>
    ensures { result ≡ or_else (read_fault read) (fault_of (length_found number)) }
{
    read?;
    length_by(number)?;
    Ok(())
}

// The length that the number asks for: one above the ceiling is refused.
fn length_by(number: Option<usize>) -> Result<usize, Refused>
    ensures { LengthBy number result }
{
    let Some(n) = number else {
        return Err(Refusal::Misspelt.at(0));
    };
    if WORD < n {
        return Err(Refusal::Oversize.at(0));
    }
    Ok(n)
}
