// Standard input, read to its end: what is kept with the bytes that each read brings, and whether
// there may be more.
#![tactic(auto)]

ghost use Rattle.std.specs.Prelude.{◌≡◌, ◌<◌, ◌^◌, [], pos, negsuc, IfOk, IfErr, unwrap_or};
ghost use Rattle.std.specs.Result.{ForOk};
ghost use Rattle.std.specs.IoError.{raw_os_error};
ghost use Rattle.table_reading.specs.declared.State.TheVariants.{End};
ghost use Rattle.table_lines.specs.Kept.{memory_of, kept_of};
ghost use Rattle.table_reading.specs.Reads.{state_after, after_of, taken_of, has_more, ReadsSome, ReadsAll};

use std::io::{Read, Result, Stdin};
use table_lines::input::{Lines, keep, nothing};

// The number of the error where a signal interrupts a call.
const EINTR: i32 = 4;

// Whether there may be more of the input, it has ended, or a read failed.
#[derive(Clone, Copy, PartialEq, Eq)]
pub enum State {
    More,
    End,
    Failed,
}

impl State {
    // Whether there may be more of the input.
    fn has_more(self) -> bool
        ensures { result ≡ has_more self }
    {
        self == State::More
    }
}

// What was kept of the input so far, beside the two buffers, and the number of the error of the
// last read, 0 where it did not fail.
#[derive(Clone, Copy)]
pub struct Reading {
    pub state: State,
    pub lines: Lines,
    pub error: i32,
}

// Reads to the end of the input, or to a read that fails, into two buffers of zeros. A proved loop
// has to end, so it has as many turns as no run uses up.
pub fn read_all(input: Stdin, set: &mut [u8], scheme: &mut [u8]) -> Reading
    requires { memory_of (kept_of []).lines set.old scheme.old ≡ kept_of [] }
    ensures kept { ReadsAll (after_of result set.new scheme.new) }
    ensures error { result.state ≡ End → result.error ≡ pos 0 }
{
    let mut reading = Reading {
        state: State::More,
        lines: nothing(),
        error: 0,
    };
    // one buffer for all reads
    let mut chunk = io::large_buffer();
    for _ in 0..u64::MAX {
        let next = read_some(input, reading.lines, set, scheme, &mut chunk);
        reading = next;
        if !next.state.has_more() {
            break;
        }
    }
    reading
}

// Reads once into the chunk, and keeps what is needed of it.
fn read_some(
    mut input: Stdin,
    lines: Lines,
    set: &mut [u8],
    scheme: &mut [u8],
    chunk: &mut [u8],
) -> Reading
    ensures kept { ReadsSome (memory_of lines set.old scheme.old)
        (after_of result set.new scheme.new) }
    ensures error { result.state ≡ End → result.error ≡ pos 0 }
{
    let answer = answer_of(input.read(chunk));
    taken(lines, set, scheme, chunk, answer.got, answer.error)
}

// What a read answered, as the C library says it: how many bytes it brought, or a negative number
// where it failed; and the number of the error, 0 where it did not fail.
#[derive(Clone, Copy)]
struct Answer {
    got: isize,
    error: i32,
}

// The answer of std as those two numbers.
fn answer_of(read: Result<usize>) -> Answer
    requires { ForOk read (λ n. n < 2 ^ 63) }
    ensures ok { IfOk read (λ n. (result.got ≡ pos n) × (result.error ≡ pos 0)) }
    ensures err { IfErr read (λ e. (result.got ≡ negsuc 0) ×
        (result.error ≡ unwrap_or (raw_os_error e) (pos 0))) }
{
    match read {
        Ok(n) => Answer {
            got: n as isize,
            error: 0,
        },
        Err(e) => Answer {
            got: -1,
            error: e.raw_os_error().unwrap_or(0),
        },
    }
}

// What is kept after a read into the chunk: `got` is how many bytes it brought, or negative where
// it failed, and `error` is then the number of the error.
fn taken(
    lines: Lines,
    set: &mut [u8],
    scheme: &mut [u8],
    chunk: &[u8],
    got: isize,
    error: i32,
) -> Reading
    ensures kept { after_of result set.new scheme.new ≡ taken_of
        (memory_of lines set.old scheme.old) chunk.now got error }
    ensures error { result.error ≡ error }
{
    let n = io::count(got, chunk);
    let kept = keep(lines, set, scheme, &chunk[..n]);
    let state = state_after(got, error);
    Reading {
        state,
        lines: kept,
        error,
    }
}

// A read of no bytes ends the input, and one that a signal interrupts is tried again.
fn state_after(got: isize, error: i32) -> State
    ensures { result ≡ state_after got error }
{
    if 0 < got {
        return State::More;
    }
    if got == 0 {
        return State::End;
    }
    if error != EINTR {
        return State::Failed;
    }
    State::More
}
