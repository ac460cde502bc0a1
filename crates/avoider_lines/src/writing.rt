// The lines of all avoiders, written to standard output one by one.
ghost use Rattle.std.specs.Prelude.{◌≡◌, [], take, get_or, pos, IsTrue};
ghost use Rattle.forms.specs.SchemeMemory.{patterns_in};
ghost use Rattle.avoider_lines.specs.Followed.{listed, PrintsAll};
ghost use Rattle.avoider_lines.specs.LineText.{line_of};

use crate::listing::{first_word, next_word};
use crate::text::{LINE, put_line};
use forms::memory::Patterns;
use std::io::{Result, Stdout, Write};
use word::limits::WORD;

// How many lines were written, and whether these are all; and the number of the error of the write
// that failed, 0 where none did.
#[derive(Clone, Copy)]
pub struct Printed {
    pub lines: u64,
    pub whole: bool,
    pub error: i32,
}

// Writes the line of each avoider of length n, in lexicographic order, when it is found. It stops
// at a write that fails.
pub fn write_avoiders(output: Stdout, patterns: Patterns, n: usize) -> Printed
    ensures lines { PrintsAll (patterns_in patterns) n result }
    ensures error { IsTrue result.whole → result.error ≡ pos 0 }
{
    let mut found = first_word(patterns, n);
    let mut lines: u64 = 0;
    while let Some(word) = found {
        if let Err(e) = write_line(output, word, patterns, n, lines) {
            return Printed {
                lines,
                whole: false,
                error: e.raw_os_error().unwrap_or(0),
            };
        }
        lines += 1;
        found = next_word(patterns, word, n);
    }
    Printed {
        lines,
        whole: true,
        error: 0,
    }
}

// Writes the line of an avoider: that with the index `lines` of the list.
fn write_line(
    output: Stdout,
    word: [u8; WORD],
    patterns: Patterns,
    n: usize,
    lines: u64,
) -> Result<()>
    requires { take n word ≡ get_or (listed (patterns_in patterns) n) lines [] }
{
    let mut page = [0u8; LINE];
    let end = put_line(&mut page, word, n);
    write_bytes(output, &page[..end], patterns, n, lines)
}

// Writes bytes to standard output. No contract of the library says what is written, so this asks
// that they are the line of the avoider with the index `lines`; the other parameters stand here for
// that alone.
fn write_bytes(
    mut output: Stdout,
    bytes: &[u8],
    patterns: Patterns,
    n: usize,
    lines: u64,
) -> Result<()>
    requires { bytes.now ≡ line_of (get_or (listed (patterns_in patterns) n) lines []) }
{
    output.write_all(bytes)
}
