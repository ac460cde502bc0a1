// The b-file, or the line of a refusal: the three lines are judged in order.
ghost use Rattle.std.specs.Prelude.{◌≤◌, ◌≡◌, take, IfOk};
ghost use Rattle.word.specs.Ceilings.{LENGTH};
ghost use Rattle.judge_texts.specs.TextJudgement.{JudgesAndReads};
ghost use Rattle.table_lines.specs.Kept.{memory_of, three_in};
ghost use Rattle.table_print.specs.TableText.{printed_table, table_text, Prints};

use counting::by_table::count_all;
use judge_texts::{TextsJudged, read_and_judge};
use table_lines::input::{Lines, complete, last_number};
use table_text::printing::{put_counts, put_refusal};
use word::limits::{CELLS, COUNTS};
use word::refusal::{Refusal, Refused};

// The counts for the lengths from 0 to the last.
#[derive(Clone, Copy)]
pub struct Table {
    pub counts: [u64; COUNTS],
    pub last: usize,
}

// Writes what is to be printed at the start of the page; the number of bytes. The buffers with the
// first two lines are lent.
pub fn print(lines: Lines, set: &[u8], scheme: &[u8], page: &mut [u8]) -> usize
    ensures { Prints (memory_of lines set.now scheme.now) page.old page.new result }
{
    match table_of(lines, set, scheme) {
        Ok(table) => put_counts(page, table.counts, table.last),
        Err(refused) => put_refusal(page, refused.refusal, refused.index),
    }
}

// The counts that the lines ask for, all made in one pass, or what is wrong with the lines: the
// set, the scheme, the number.
fn table_of(lines: Lines, set: &[u8], scheme: &[u8]) -> Result<Table, Refused>
    ensures text { printed_table result ≡ table_text (three_in (memory_of lines set.now scheme.now)) }
    ensures few { IfOk result (λ t. t.last ≤ LENGTH) }
{
    // "A missing line or a fourth is misspelt, tested before all else" (01)
    if !complete(lines) {
        return Err(Refusal::Misspelt.at(0));
    }
    let judged = judge_lines(lines, set, scheme);
    let patterns = judged.patterns?;
    let entries = judged.scheme?;
    judged.verdict?;
    let Some(last) = last_number(lines) else {
        return Err(Refusal::Misspelt.at(0));
    };
    let mut table = [0u64; CELLS];
    let counts = count_all(patterns, entries, last, &mut table)?;
    Ok(Table { counts, last })
}

// The verdict on the first two lines, as far as they were kept.
fn judge_lines(lines: Lines, set: &[u8], scheme: &[u8]) -> TextsJudged
    ensures { JudgesAndReads (take lines.set_length set.now)
        (take lines.scheme_length scheme.now) result }
{
    let m = lines.set_length.min(set.len());
    let n = lines.scheme_length.min(scheme.len());
    read_and_judge(&set[..m], &scheme[..n])
}
