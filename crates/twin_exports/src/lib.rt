// Counting on two texts, also by inversions, judging them with a page, containment, and the first
// and the next avoider, with a C calling convention: for the differential test and the benchmark of
// twin/.
#![tactic(auto)]

ghost use Rattle.std.specs.Prelude.{◌≡◌, map, ◌≤◌, min, take};
ghost use Rattle.word.specs.Ceilings.{DIGITS};
ghost use Rattle.text_page.specs.Page.{overlay};
ghost use Rattle.twin_exports.specs.TextCounts.{both_read, code_of, CountsTexts, PlainTexts};
ghost use Rattle.twin_exports.specs.FigureTexts.{FiguresOfTexts};
ghost use Rattle.twin_exports.specs.PageCodes.{JudgesOnPage, CopiesOf};
ghost use Rattle.twin_exports.specs.ListCodes.{listed_code, FirstOfText, NextOfText};

use containment::contains;
use counting::by_inversions::count_by_inversions;
use counting::by_table::count;
use counting::plainly::count_plainly;
use forms::memory::{Patterns, Scheme};
use judge_texts::judge_texts;
use lexicographic::listing::{first_avoider, next_avoider};
use notation::patterns::read_patterns;
use notation::schemes::read_scheme;
use text_page::bytes::put_bytes;
use witness::bytes_of;
use word::limits::DIGITS;
use word::refusal::Refused;

// The count for n by the scheme that a text spells: the count itself, or 2 to the 64 less 1 and
// less the number of the refusal.
#[unsafe(no_mangle)]
pub extern "C" fn count_texts(patterns: &[u8], scheme: &[u8], n: usize, table: &mut [u64]) -> u64
    ensures { CountsTexts patterns.now scheme.now n table.old table.new result }
{
    let p = read_patterns(patterns);
    let s = read_scheme(scheme);
    match both(p, s) {
        Ok((set, list)) => code(count(set, list, n, table)),
        Err(refused) => code(Err(refused)),
    }
}

// The same without a table, n up to PLAIN_LENGTH.
#[unsafe(no_mangle)]
pub extern "C" fn count_texts_plainly(patterns: &[u8], scheme: &[u8], n: usize) -> u64
    ensures { PlainTexts patterns.now scheme.now n result }
{
    let p = read_patterns(patterns);
    let s = read_scheme(scheme);
    match both(p, s) {
        Ok((set, list)) => code(count_plainly(set, list, n)),
        Err(refused) => code(Err(refused)),
    }
}

// Both lists, or the refusal of the first that is refused, the set before the scheme.
fn both(
    patterns: Result<Patterns, Refused>,
    scheme: Result<Scheme, Refused>,
) -> Result<(Patterns, Scheme), Refused>
    ensures { result ≡ both_read patterns scheme }
{
    let set = patterns?;
    let list = scheme?;
    Ok((set, list))
}

// An answer as one number.
fn code(answer: Result<u64, Refused>) -> u64
    ensures { result ≡ code_of answer }
{
    match answer {
        Ok(value) => value,
        Err(refused) => u64::MAX - u64::from(u8::from(refused.refusal)),
    }
}

// The same of a number of another type.
fn size_code(answer: Result<usize, Refused>) -> u64
    ensures { result ≡ code_of answer }
{
    code(answer.map(|n| n as u64))
}

// The figures for n by the scheme that a text spells, over the front of the results: how many they
// are, or 2 to the 64 less 1 and less the number of the refusal.
#[unsafe(no_mangle)]
pub extern "C" fn inversions_of_texts(
    patterns: &[u8],
    scheme: &[u8],
    n: usize,
    table: &mut [u64],
    results: &mut [u64],
) -> u64
    ensures { FiguresOfTexts patterns.now scheme.now n table.old table.new
        results.old results.new result }
{
    let p = read_patterns(patterns);
    let s = read_scheme(scheme);
    match both(p, s) {
        Ok((set, list)) => size_code(count_by_inversions(set, list, n, table, results)),
        Err(refused) => code(Err(refused)),
    }
}

// Judges two texts with a page: the number of compared cells, or 2 to the 64 less 1 and less the
// number of the refusal. With refusal 11 the page begins with the witness.
#[unsafe(no_mangle)]
pub extern "C" fn judge_texts_on_page(patterns: &[u8], scheme: &[u8], page: &mut [u8]) -> u64
    ensures { JudgesOnPage patterns.now scheme.now page.old page.new result }
{
    size_code(judge_texts(patterns, scheme, page))
}

// The first copy of a pattern in a permutation: the number of its positions, 0 where there is none,
// or 2 to the 64 less 1 and less the number of the refusal. The positions stand at the front of the
// page, as far as it goes.
#[unsafe(no_mangle)]
pub extern "C" fn copy_of(pattern: &[u8], permutation: &[u8], page: &mut [u8]) -> u64
    ensures { CopiesOf pattern.now permutation.now page.old page.new result }
{
    let answer = contains(pattern, permutation);
    let n = pattern.len();
    match answer {
        Ok(Some(at)) => put_positions(at, n, page),
        Ok(None) => 0,
        Err(refused) => code(Err(refused)),
    }
}

// Writes the first n positions, as far as the page goes.
fn put_positions(at: [usize; DIGITS], n: usize, page: &mut [u8]) -> u64
    requires { n ≤ DIGITS }
    ensures { (result ≡ n) × (page.new ≡ overlay 0 (take n (map (λ x. min x 255) at)) page.old) }
{
    let bytes = bytes_of(at);
    put_bytes(page, 0, &bytes[..n]);
    n as u64
}

// The first avoider of length n of the patterns that a text spells: 1 where it is given, 0 where
// there is none, or 2 to the 64 less 1 and less the number of the refusal.
#[unsafe(no_mangle)]
pub extern "C" fn first_of_text(patterns: &[u8], n: usize, page: &mut [u8]) -> u64
    ensures { FirstOfText patterns.now n page.old page.new result }
{
    let p = read_patterns(patterns);
    match p {
        Ok(set) => listed_code(first_avoider(set, n, page)),
        Err(refused) => listed_code(Err(refused)),
    }
}

// The next avoider after a permutation: 1 where it is given, 0 where it was the last, or 2 to the
// 64 less 1 and less the number of the refusal.
#[unsafe(no_mangle)]
pub extern "C" fn next_of_text(patterns: &[u8], permutation: &[u8], page: &mut [u8]) -> u64
    ensures { NextOfText patterns.now permutation.now page.old page.new result }
{
    let p = read_patterns(patterns);
    match p {
        Ok(set) => listed_code(next_avoider(set, permutation, page)),
        Err(refused) => listed_code(Err(refused)),
    }
}

// Whether an avoider was given, as one number.
fn listed_code(answer: Result<bool, Refused>) -> u64
    ensures { result ≡ listed_code answer }
{
    code(answer.map(u64::from))
}
