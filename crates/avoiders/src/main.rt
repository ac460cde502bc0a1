// The program for avoiders: reads a set of patterns and a length from standard input, and prints
// each avoider of that length on a line, in lexicographic order, or the line of a refusal. Where
// reading or writing fails it says so on standard error.
#![tactic(auto)]

use avoider_lines::judging::asked_for;
use avoider_lines::writing::write_avoiders;
use forms::memory::Patterns;
use std::io::{Error, Write};
use table_lines::input::{Lines, SCHEME, SET};
use table_reading::{State, read_all};
use table_text::printing::{PAGE, put_refusal};
use word::refusal::Refused;

fn main(rt: HostRuntime) -> std::io::Result<()> {
    // the texts of the two lines stand here and are lent
    let mut set = [0u8; SET];
    let mut second = [0u8; SCHEME];
    let reading = read_all(rt.stdin(), &mut set, &mut second);
    let lines = reading.lines;
    let state = reading.state;
    match state {
        State::End => answer(rt, lines, &set, &second),
        State::More => read_failed(rt, reading.error),
        State::Failed => read_failed(rt, reading.error),
    }
}

// Says on standard error that a read failed, and why.
fn read_failed(rt: HostRuntime, error: i32) -> std::io::Result<()> {
    let why = Error::from_raw_os_error(error);
    eprintln!(rt; "avoiders: reading standard input: {why}")
}

// Prints the avoiders that the lines ask for, or the line of a refusal.
fn answer(rt: HostRuntime, lines: Lines, set: &[u8], second: &[u8]) -> std::io::Result<()> {
    match asked_for(lines, set, second) {
        Ok(asked) => print_avoiders(rt, asked.patterns, asked.length),
        Err(wrong) => print_refusal(rt, wrong.refused),
    }
}

// Prints the avoiders of a length.
fn print_avoiders(rt: HostRuntime, patterns: Patterns, length: usize) -> std::io::Result<()> {
    let printed = write_avoiders(rt.stdout(), patterns, length);
    if !printed.whole {
        let why = Error::from_raw_os_error(printed.error);
        eprintln!(rt; "avoiders: writing standard output: {why}")?;
    }
    Ok(())
}

// Prints the line of a refusal.
fn print_refusal(rt: HostRuntime, refused: Refused) -> std::io::Result<()> {
    let mut page = [0u8; PAGE];
    let n = put_refusal(&mut page, refused.refusal, refused.index);
    let mut output = rt.stdout();
    if let Err(why) = output.write_all(&page[..n]) {
        eprintln!(rt; "avoiders: writing standard output: {why}")?;
    }
    Ok(())
}
