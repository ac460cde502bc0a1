// The witness of a refusal 11 on a lent page: a permutation, and a copy of a pattern in it.
#![tactic(auto)]

ghost use Rattle.std.specs.Prelude.{◌≡◌, map, ◌+◌, ◌<◌, ◌≤◌, min, length};
ghost use Rattle.std.proofs.Math.Option.{some};
ghost use Rattle.word.specs.Ceilings.{HALF, PAGE};
ghost use Rattle.forms.specs.SetMemory.{held_in};
ghost use Rattle.text_page.specs.Page.{Writes};
ghost use Rattle.verdict.specs.Witness.{half, witness_bytes};

use containment::earliest_in;
use forms::memory::Pattern;
use text_page::bytes::{put, put_bytes};
use word::limits::{DIGITS, HALF};

// the bytes of a half behind its first
const ITEMS: usize = HALF - 1;

// Positions as bytes, 255 for a larger one.
pub fn bytes_of(at: [usize; DIGITS]) -> [u8; DIGITS]
    ensures { result ≡ map (λ x. min x 255) at }
{
    at.map(|x| x.min(255) as u8)
}

// Writes one half of a witness: how many numbers there are, the numbers, and zeros.
fn put_half(page: &mut [u8], at: usize, items: &[u8]) -> usize
    requires { (length items.now < HALF) × (at + HALF ≤ PAGE) }
    ensures { Writes (half items.now) at page.old page.new result }
{
    let n = items.len();
    let zeros = [0u8; ITEMS];
    let left = ITEMS - n;
    let first = put(page, at, n as u8);
    let next = put_bytes(page, first, items);
    put_bytes(page, next, &zeros[..left])
}

// Writes the witness: the permutation w, and the first copy of the earliest pattern of the set that
// has one in it. "The first 16 bytes hold its length, its entries and zeros; the next 16 hold the
// length of a copy in it, the copy's positions and zeros" (02, order 1). The number of bytes is
// returned.
pub fn show_witness(patterns: &[Pattern], w: &[u8], page: &mut [u8]) -> usize
    requires { length w.now < HALF }
    ensures { Writes (witness_bytes (held_in patterns.now) (some w.now)) 0
        page.old page.new result }
{
    let copy = earliest_in(patterns, w);
    let next = put_half(page, 0, w);
    match copy {
        Some(copy) => {
            let positions = bytes_of(copy.at);
            put_half(page, next, &positions[..copy.length])
        }
        None => put_half(page, next, &[]),
    }
}
