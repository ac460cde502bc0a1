// The tests 2, 3, 4, 6 and 7 of one entry in memory.
ghost use Rattle.std.specs.Prelude.{◌-◌, ◌≤◌, ◌≡◌, map};
ghost use Rattle.word.specs.Ceilings.{PREFIX, COMPONENTS};
ghost use Rattle.word.specs.Lists.{row};
ghost use Rattle.word.specs.Word.{is_perm};
ghost use Rattle.cell.specs.Basis.{same};
ghost use Rattle.scheme.specs.WellFormed.{listed, repeats, large_gap, large_entry, wrong_width, astray, outside};
ghost use Rattle.forms.specs.SchemeMemory.{padded, gap_in, gap_at, does_of, entry_in};
ghost use Rattle.scheme.specs.Sized.{SizedEntry};

use forms::gaps::entry_gap;
use forms::memory::{Entry, Gap, Rule};
use word::limits::{COMPONENTS, GAPS, PREFIX, TOTAL};
use word::permutation::is_permutation;

// Whether the entry has too long a prefix, too many vectors, or a vector that passes a ceiling.
pub fn large_entry(e: Entry) -> bool
    ensures { result ≡ large_entry (entry_in e) }
{
    let k = e.length;
    if PREFIX < k {
        return true;
    }
    let n = e.gap_count;
    if GAPS < n {
        return true;
    }
    for j in 0..n {
        let b = entry_gap(e, j);
        if large_gap(b) {
            return true;
        }
    }
    false
}

// Whether the vector has too many components or too large a total. Adding stops above TOTAL.
fn large_gap(b: Gap) -> bool
    ensures { result ≡ large_gap (gap_in b) }
{
    let n = b.width;
    if COMPONENTS < n {
        return true;
    }
    let mut sum: usize = 0;
    for i in 0..n {
        sum += usize::from(b.parts[i]);
        if TOTAL < sum {
            return true;
        }
    }
    false
}

// Whether the prefix of the entry is a permutation.
pub fn is_permuted(e: Entry) -> bool
    requires { SizedEntry e }
    ensures { result ≡ is_perm (padded e.length e.prefix) }
{
    is_permutation(&e.prefix[..e.length])
}

// Whether a vector stands twice in the entry.
pub fn has_twin_gaps(e: Entry) -> bool
    requires { SizedEntry e }
    ensures { result ≡ repeats (map (gap_at e) (row 0 e.gap_count)) }
{
    let n = e.gap_count;
    for j in 0..n {
        let b = entry_gap(e, j);
        if stands_from(e, j + 1, b) {
            return true;
        }
    }
    false
}

// Whether the vector b stands in the entry at the index `start` or later.
fn stands_from(e: Entry, start: usize, b: Gap) -> bool
    requires { SizedEntry e × (start ≤ e.gap_count) × (b.width ≤ COMPONENTS) }
    ensures { result ≡ listed (map (gap_at e) (row start (e.gap_count - start))) (gap_in b) }
{
    let n = e.gap_count;
    for j in start..n {
        let d = entry_gap(e, j);
        if same_gap(b, d) {
            return true;
        }
    }
    false
}

// Whether the two vectors are the same list.
fn same_gap(b: Gap, d: Gap) -> bool
    requires { (b.width ≤ COMPONENTS) × (d.width ≤ COMPONENTS) }
    ensures { result ≡ same (gap_in b) (gap_in d) }
{
    b.parts[..b.width] == d.parts[..d.width]
}

// Whether a vector of the entry has another number of components than one more than the prefix has.
pub fn wrong_width(e: Entry) -> bool
    requires { SizedEntry e }
    ensures { result ≡ wrong_width (entry_in e) }
{
    let k = e.length;
    let n = e.gap_count;
    for j in 0..n {
        let w = usize::from(e.widths[j]);
        if w != k + 1 {
            return true;
        }
    }
    false
}

// Whether the rule deletes an empty set, or one that does not rise within 1 to k.
pub fn is_outside(k: usize, rule: Rule) -> bool
    ensures { result ≡ outside k (does_of rule) }
{
    match rule {
        Rule::Expand => false,
        Rule::Delete(d) => {
            let n = usize::from(d.count);
            if n == 0 {
                return true;
            }
            if PREFIX < n {
                return true;
            }
            is_astray(k, d.as_slice())
        }
    }
}

// Whether one of the positions is not above the one before it, or is above k.
fn is_astray(k: usize, positions: &[u8]) -> bool
    ensures { result ≡ astray k 0 positions.now }
{
    let mut last: usize = 0;
    for t in 0..positions.len() {
        let r = usize::from(positions[t]);
        if r <= last {
            return true;
        }
        if k < r {
            return true;
        }
        last = r;
    }
    false
}
