// The card of each entry: its children and its target are looked up once for all cells.
ghost use Rattle.std.specs.Prelude.{◌≡◌, true, false, cond, ◌+◌, ◌≤◌, ◌<◌, length};
ghost use Rattle.word.specs.Ceilings.{PREFIX};
ghost use Rattle.word.specs.Word.{avoids, is_perm};
ghost use Rattle.cell.specs.Child.{child_at};
ghost use Rattle.forms.specs.SchemeList.{deletes};
ghost use Rattle.forms.specs.SchemeMemory.{entry_in};
ghost use Rattle.forms.specs.SetMemory.{held_in};
ghost use Rattle.scheme.specs.Links.{LinkedEntry};
ghost use Rattle.scheme.specs.WellFormed.{outside};
ghost use Rattle.count_plan.specs.Cards.{Coded, index_in, ChildLinks, Expands, Deletes, Shorter, EntryCard};

use containment::any_in;
use forms::memory::{Entry, Pattern, Rule};
use placing::tables::{VALUES, deleted_values};
use scheme::links::{child, find_prefix, shorter};
use word::limits::LINKS;

// What counting has to know of an entry beside its gap vectors: its length; how many positions it
// deletes, 0 where it expands, and the values there, flagged; what it has at total 0 where it
// expands; the indices of the entries of its children, in the order of their last entries, or of
// its target.
#[derive(Clone, Copy)]
pub struct Card {
    pub length: usize,
    pub deleted: usize,
    pub gone: [u8; VALUES],
    pub alone: u64,
    pub links: [usize; LINKS],
}

// The index of the entry of a prefix; 0 where there is none.
pub fn index_in(codes: &[u64], prefix: &[u8]) -> usize
    requires { length prefix.now ≤ PREFIX }
    ensures { Coded codes.now (λ ps. result ≡ index_in ps prefix.now) }
{
    find_prefix(codes, prefix).unwrap_or(0)
}

// The index of the entry of the child with the last entry a.
fn child_index(codes: &[u64], prefix: &[u8], a: u8) -> usize
    requires { (length prefix.now < PREFIX) × (is_perm prefix.now ≡ true) }
    ensures { Coded codes.now (λ ps. result ≡ index_in ps (child_at prefix.now a)) }
{
    let q = child(prefix, a);
    index_in(codes, &q[..prefix.len() + 1])
}

// The indices of the entries of all children.
fn child_links(codes: &[u64], prefix: &[u8]) -> [usize; LINKS]
    requires { (length prefix.now < PREFIX) × (is_perm prefix.now ≡ true) }
    ensures { Coded codes.now (λ ps. ChildLinks ps prefix.now (length prefix.now + 1) result) }
{
    let mut links = [0usize; LINKS];
    for a in 0..=prefix.len() {
        let index = child_index(codes, prefix, (a as u8) + 1);
        links[a] = index;
    }
    links
}

// The value at total 0: 1 if the prefix avoids all patterns, else 0.
fn alone_value(patterns: &[Pattern], prefix: &[u8]) -> u64
    ensures { result ≡ cond (avoids (held_in patterns.now) prefix.now) 1 0 }
{
    if any_in(patterns, prefix) { 0 } else { 1 }
}

// The card of an expanding entry.
fn expanding(patterns: &[Pattern], codes: &[u64], prefix: &[u8]) -> Card
    requires { (length prefix.now < PREFIX) × (is_perm prefix.now ≡ true) }
    ensures { Coded codes.now (λ ps. Expands (held_in patterns.now) ps prefix.now result) }
{
    let alone = alone_value(patterns, prefix);
    let links = child_links(codes, prefix);
    Card {
        length: prefix.len(),
        deleted: 0,
        gone: [0u8; VALUES],
        alone: alone,
        links: links,
    }
}

// The card of an entry that deletes the positions.
fn deleting(codes: &[u64], prefix: &[u8], positions: &[u8]) -> Card
    requires { (length prefix.now ≤ PREFIX) × (length positions.now ≤ length prefix.now) × (is_perm prefix.now ≡ true) ×
        (outside (length prefix.now) (deletes positions.now) ≡ false) }
    ensures { Coded codes.now (λ ps. Deletes ps prefix.now positions.now result) }
{
    let gone = deleted_values(prefix, positions);
    let q = shorter(prefix, positions);
    let target = index_in(codes, &q[..prefix.len() - positions.len()]);
    let mut links = [0usize; LINKS];
    links[0] = target;
    Card {
        length: prefix.len(),
        deleted: positions.len(),
        gone: gone,
        alone: 0,
        links: links,
    }
}

// The card of an entry, by its rule.
pub fn entry_card(patterns: &[Pattern], codes: &[u64], e: Entry) -> Card
    requires { LinkedEntry e × Shorter e }
    ensures { Coded codes.now (λ ps. EntryCard (held_in patterns.now) ps (entry_in e) result) }
{
    let prefix = &e.prefix[..e.length];
    match e.rule {
        Rule::Expand => expanding(patterns, codes, prefix),
        Rule::Delete(d) => deleting(codes, prefix, d.as_slice()),
    }
}
