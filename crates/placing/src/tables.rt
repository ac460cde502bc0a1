// The numbers that the candidate search looks up by value: levels, deleted values; and the
// candidate's word.
ghost use Rattle.std.specs.Prelude.{◌≡◌, true, List, map, ℕ, ◌+◌, ◌-◌, ◌<◌, ◌≤◌, min, length, take};
ghost use Rattle.word.specs.Ceilings.{DIGITS, PREFIX, TOTAL};
ghost use Rattle.word.specs.Lists.{all};
ghost use Rattle.word.specs.Word.{under, has, entry, is_perm, within};
ghost use Rattle.cell.specs.Cell.{total};
ghost use Rattle.cell.specs.Built.{level, lift};
ghost use Rattle.placing.specs.Lookup.{VALUES, entry_of, Says, Flags};
ghost use Rattle.placing.specs.Tabled.{LEVEL, kept_values, Rest, IsCandidate};

use word::limits::{COMPONENTS, DIGITS, PREFIX, WORD};

// values that a list which is indexed by values reaches: 0 and the digits
pub const VALUES: usize = DIGITS + 1;
// the largest level that is looked at: lifted by one for each prefix value it fits a byte
const LEVEL: u8 = 100;

// What the search looks up by value, at one spacing and for one pattern: the level that each head
// entry of the pattern needs, the level of each prefix value, and which prefix values are deleted.
#[derive(Clone, Copy)]
pub struct Tables {
    pub need: [u8; VALUES],
    pub levels: [u8; VALUES],
    pub gone: [u8; VALUES],
}

// How many of the entries are at most x.
pub fn at_most(entries: &[u8], x: u8) -> u8
    requires { length entries.now ≤ DIGITS }
    ensures { result ≡ under entries.now x }
{
    let mut n: u8 = 0;
    for y in entries {
        if *y <= x {
            n += 1;
        }
    }
    n
}

// The level of each prefix value: what the components of the spacing before it hold together.
pub fn levels_of(g: &[u8]) -> [u8; VALUES]
    requires { (length g.now ≤ COMPONENTS) × (total g.now ≤ TOTAL) }
    ensures { Says result (length g.now) (level g.now) }
{
    let mut levels = [0u8; VALUES];
    let mut sum: u8 = 0;
    for v in 1..g.len() {
        sum += g[v - 1];
        levels[v] = sum;
    }
    levels
}

// The values that a prefix has at the deleted positions, flagged.
pub fn deleted_values(prefix: &[u8], positions: &[u8]) -> [u8; VALUES]
    requires { (length prefix.now ≤ PREFIX) × (is_perm prefix.now ≡ true) × (all (within (length prefix.now)) positions.now ≡ true) }
    ensures { Flags result VALUES (λ v. has v (map (entry prefix.now) positions.now)) }
{
    let mut gone = [0u8; VALUES];
    for position in positions {
        let at = usize::from(*position);
        let v = usize::from(prefix[at - 1]);
        gone[v] = 1;
    }
    gone
}

// The actual value of the rest value s, by the levels of the prefix values 1 to k: one more for
// each that lies below it.
pub fn lifted(levels: [u8; VALUES], k: usize, s: u8) -> u8
    requires { (k ≤ PREFIX) × (s ≤ LEVEL) }
    ensures { (g : List ℕ) → length g ≡ k + 1 → Says levels (k + 1) (level g) → s ≤ total g → result ≡ lift g s }
{
    let mut r = s;
    for v in 1..k + 1 {
        if levels[v] < s {
            r += 1;
        }
    }
    r
}

// A word in memory: so many of the entries.
#[derive(Clone, Copy)]
pub struct Word {
    pub entries: [u8; WORD],
    pub length: usize,
}

// What a table says of a value, and 0 of a value that it does not reach.
pub fn told(table: &[u8; VALUES], v: u8) -> u8
    ensures { result ≡ entry_of table.now v }
{
    table.get(usize::from(v)).copied().unwrap_or(0)
}

// The actual values of the prefix values that are not flagged, in their order.
pub fn kept(prefix: &[u8], levels: [u8; VALUES], gone: [u8; VALUES]) -> Word
    requires { length prefix.now ≤ PREFIX }
    ensures { (result.length ≤ PREFIX) × (take result.length result.entries ≡ kept_values levels gone prefix.now) }
{
    let mut entries = [0u8; WORD];
    let mut n: usize = 0;
    for a in prefix {
        if told(&gone, *a) == 0 {
            entries[n] = a.saturating_add(told(&levels, *a));
            n += 1;
        }
    }
    Word { entries, length: n }
}

// The word, and behind it the actual values of the pattern entries, each by the level that it
// needs; k is the length of the prefix.
fn with_rest(w: Word, rest: &[u8], tables: Tables, k: usize) -> Word
    requires { (k ≤ PREFIX) × (length rest.now ≤ DIGITS) × (w.length ≤ PREFIX) }
    ensures { (result.length ≤ PREFIX + DIGITS) × Rest rest.now tables.need tables.levels k
        (take w.length w.entries) (take result.length result.entries) }
{
    let need = tables.need;
    let levels = tables.levels;
    let mut entries = w.entries;
    let mut n = w.length;
    for y in rest {
        let s = told(&need, *y).min(LEVEL);
        entries[n] = lifted(levels, k, s);
        n += 1;
    }
    Word { entries, length: n }
}

// The candidate for a violation: the prefix without its deleted values, and the last t entries of
// the pattern as its rest.
pub fn candidate_word(prefix: &[u8], pattern: &[u8], t: usize, tables: Tables) -> Word
    requires { (length prefix.now ≤ PREFIX) × (t ≤ length pattern.now) × (length pattern.now ≤ DIGITS) }
    ensures { (result.length ≤ PREFIX + DIGITS) × IsCandidate prefix.now tables.levels tables.gone
        pattern.now t tables.need (take result.length result.entries) }
{
    let w = kept(prefix, tables.levels, tables.gone);
    with_rest(w, &pattern[pattern.len() - t..], tables, prefix.len())
}
