// The test by which a word with too many unused values between two bounds cannot be completed.
#![tactic(auto)]

ghost use Rattle.std.specs.Prelude.{◌≡◌, ◌&&◌, cond, ◌-◌, ◌*◌, ◌≤◌, ◌<◌, take, drop, get_or, length};
ghost use Rattle.word.specs.Ceilings.{DIGITS, WORD};
ghost use Rattle.forms.specs.SetMemory.{held, held_in};
ghost use Rattle.crowding.specs.Crowding.{precedes, monotone, monotone_length};
ghost use Rattle.crowding.specs.Crowding.{shorter, shortest, shortest_rising, shortest_falling};
ghost use Rattle.crowding.specs.Crowding.{bound, start_ends, next_ends, ends, crowded};
ghost use Rattle.crowding.specs.Followers.{following, followers_of, Holds, over_row, over_some};

use forms::memory::Pattern;
use word::limits::{DIGITS, WORD};

// Whether more unused values lie between the end of an increasing and the end of a decreasing
// subsequence of the first `len` entries of the word than a completion can take that contains
// neither an increasing pattern of `rises` entries nor a decreasing one of `falls`. The unused
// values stand behind the first `len` entries, up to n. A length of 0 is none: without one of the
// two patterns no word is crowded.
pub fn is_crowded(word: [u8; WORD], len: usize, n: usize, rises: usize, falls: usize) -> bool
    requires { (len ≤ n) × (n ≤ WORD) × (rises ≤ DIGITS) × (falls ≤ DIGITS) }
    ensures { result ≡ crowded rises falls n (take len word) (drop len (take n word)) }
{
    if rises == 0 {
        return false;
    }
    if falls == 0 {
        return false;
    }
    let entries = &word[..len];
    let unused = &word[..n][len..];
    let highs = followers(entries, unused, n, true, rises);
    let lows = followers(entries, unused, n, false, falls);
    some_over(highs, rises, lows, falls, n - len)
}

// The length of the shortest increasing pattern of the set, 0 for none.
pub fn shortest_rising(patterns: &[Pattern]) -> usize
    ensures { (result ≡ shortest_rising (held_in patterns.now)) × (result ≤ DIGITS) }
{
    shortest_monotone(patterns, true)
}

// The length of the shortest decreasing pattern of the set, 0 for none.
pub fn shortest_falling(patterns: &[Pattern]) -> usize
    ensures { (result ≡ shortest_falling (held_in patterns.now)) × (result ≤ DIGITS) }
{
    shortest_monotone(patterns, false)
}

// Whether x comes before y, up or down.
fn is_before(up: bool, x: u8, y: u8) -> bool
    ensures { result ≡ precedes up x y }
{
    if up { x < y } else { y < x }
}

// The number that comes before all values of 1 to n.
fn outermost(up: bool, n: usize) -> u8
    requires { n ≤ WORD }
    ensures { result ≡ bound up n }
{
    if up { 0 } else { (n + 1) as u8 }
}

// The ends before the first entry of a word.
fn start_ends(up: bool, n: usize) -> [u8; DIGITS]
    requires { n ≤ WORD }
    ensures { Holds DIGITS (start_ends up n) result }
{
    let first = outermost(up, n);
    let none = outermost(!up, n);
    let mut ends = [none; DIGITS];
    ends[0] = first;
    ends
}

// An end after the entry x, by the end for one entry less.
fn next_end(up: bool, prior: u8, x: u8, end: u8) -> u8
    ensures { result ≡ cond (precedes up prior x && precedes up x end) x end }
{
    if !is_before(up, prior, x) {
        return end;
    }
    if is_before(up, x, end) { x } else { end }
}

// The first k ends after the entry x.
fn next_ends(ends: [u8; DIGITS], up: bool, x: u8, k: usize) -> [u8; DIGITS]
    requires { k ≤ DIGITS }
    ensures { Holds k (next_ends up x (λ l. get_or ends l 0)) result }
{
    let mut next = ends;
    for l in 1..k {
        next[l] = next_end(up, ends[l - 1], x, ends[l]);
    }
    next
}

// The first k ends of the entries of a word.
fn ends_of(entries: &[u8], n: usize, up: bool, k: usize) -> [u8; DIGITS]
    requires { (n ≤ WORD) × (k ≤ DIGITS) }
    ensures { Holds k (ends up n entries.now) result }
{
    let mut ends = start_ends(up, n);
    for &x in entries {
        let next = next_ends(ends, up, x, k);
        ends = next;
    }
    ends
}

// How many of the unused values x comes before.
fn count_following(unused: &[u8], up: bool, x: u8) -> u8
    requires { length unused.now ≤ WORD }
    ensures { result ≡ following up x unused.now }
{
    let mut count: u8 = 0;
    for &value in unused {
        if is_before(up, x, value) {
            count += 1;
        }
    }
    count
}

// For each of the first k ends of the entries, how many of the unused values it comes before.
fn followers(entries: &[u8], unused: &[u8], n: usize, up: bool, k: usize) -> [u8; DIGITS]
    requires { (length unused.now ≤ WORD) × (n ≤ WORD) × (k ≤ DIGITS) }
    ensures { Holds k (followers_of up n entries.now unused.now) result }
{
    let ends = ends_of(entries, n, up, k);
    let mut counts = [0u8; DIGITS];
    for l in 0..k {
        counts[l] = count_following(unused, up, ends[l]);
    }
    counts
}

// How many entries may still follow a monotone subsequence of l entries, if there is a pattern of
// that direction with `length` entries.
fn left(length: usize, l: usize) -> usize
    requires { (l < length) × (length ≤ DIGITS) }
    ensures { (result ≡ length - 1 - l) × (result ≤ DIGITS) }
{
    length - 1 - l
}

// How many values there is room for.
fn most(rises: usize, falls: usize) -> usize
    requires { (rises ≤ DIGITS) × (falls ≤ DIGITS) }
    ensures { (result ≡ rises * falls) × (result ≤ DIGITS * DIGITS) }
{
    rises * falls
}

// Whether too many values lie between one end of an increasing subsequence and some end of a
// decreasing one, with `room` entries that may still increase.
fn row_over(room: usize, high: u8, lows: [u8; DIGITS], falls: usize, unused: usize) -> bool
    requires { (room ≤ DIGITS) × (falls ≤ DIGITS) × (unused ≤ WORD) }
    ensures { result ≡ over_row room high unused lows falls }
{
    for m in 0..falls {
        let fit = most(room, left(falls, m)) + unused;
        if fit < usize::from(high) + usize::from(lows[m]) {
            return true;
        }
    }
    false
}

// Whether too many values lie between some two ends.
fn some_over(
    highs: [u8; DIGITS],
    rises: usize,
    lows: [u8; DIGITS],
    falls: usize,
    unused: usize,
) -> bool
    requires { (rises ≤ DIGITS) × (falls ≤ DIGITS) × (unused ≤ WORD) }
    ensures { result ≡ over_some unused highs rises lows falls }
{
    for l in 0..rises {
        if row_over(left(rises, l), highs[l], lows, falls, unused) {
            return true;
        }
    }
    false
}

// Whether the digits increase or decrease.
fn is_monotone(digits: &[u8], up: bool) -> bool
    ensures { result ≡ monotone up digits.now }
{
    for i in 1..digits.len() {
        if !is_before(up, digits[i - 1], digits[i]) {
            return false;
        }
    }
    true
}

// The length of a monotone pattern, 0 for any other.
fn monotone_length(p: &Pattern, up: bool) -> usize
    ensures { (result ≡ monotone_length up (held p.now)) × (result ≤ DIGITS) }
{
    let digits = p.as_slice();
    if is_monotone(digits, up) {
        digits.len()
    } else {
        0
    }
}

// The smaller of two lengths, where 0 is none.
fn shorter_of(a: usize, b: usize) -> usize
    requires { (a ≤ DIGITS) × (b ≤ DIGITS) }
    ensures { (result ≡ shorter a b) × (result ≤ DIGITS) }
{
    if a == 0 {
        return b;
    }
    if b == 0 {
        return a;
    }
    a.min(b)
}

// The length of the shortest monotone pattern of the set, 0 for none.
fn shortest_monotone(patterns: &[Pattern], up: bool) -> usize
    ensures { (result ≡ shortest up (held_in patterns.now)) × (result ≤ DIGITS) }
{
    let mut best: usize = 0;
    for p in patterns {
        best = shorter_of(best, monotone_length(p, up));
    }
    best
}
