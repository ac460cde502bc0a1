// The table program: reads a set, a scheme and the largest length from standard input, and prints a
// b-file or the line of a refusal. Where reading or writing fails it says so on standard error.
#![tactic(auto)]

use std::io::{Error, Write};
use table_lines::input::{Lines, SCHEME, SET};
use table_print::printing::print;
use table_reading::{State, read_all};
use table_text::printing::PAGE;

fn main(rt: HostRuntime) -> std::io::Result<()> {
    // the texts of the first two lines stand here and are lent
    let mut set = [0u8; SET];
    let mut scheme = [0u8; SCHEME];
    let reading = read_all(rt.stdin(), &mut set, &mut scheme);
    let lines = reading.lines;
    let state = reading.state;
    match state {
        State::End => write_table(rt, lines, &set, &scheme),
        State::More => read_failed(rt, reading.error),
        State::Failed => read_failed(rt, reading.error),
    }
}

// Says on standard error that a read failed, and why.
fn read_failed(rt: HostRuntime, error: i32) -> std::io::Result<()> {
    let why = Error::from_raw_os_error(error);
    eprintln!(rt; "table: reading standard input: {why}")
}

// Prints the b-file or the line of a refusal.
fn write_table(rt: HostRuntime, lines: Lines, set: &[u8], scheme: &[u8]) -> std::io::Result<()> {
    let mut page = [0u8; PAGE];
    let n = print(lines, set, scheme, &mut page);
    let mut output = rt.stdout();
    if let Err(why) = output.write_all(&page[..n]) {
        eprintln!(rt; "table: writing standard output: {why}")?;
    }
    Ok(())
}
