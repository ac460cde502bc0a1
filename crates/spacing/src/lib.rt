// The spacings of one total in lexicographic order, and the number of compared spacings of an
// entry; binomials, the rank of a spacing, and the spacing that comes next by rank.
#![tactic(auto)]

pub mod binomials;
pub mod walk;

ghost use Rattle.std.specs.Prelude.{◌≡◌, suc, ◌+◌, ◌<◌, ◌≤◌, length, take};
ghost use Rattle.word.specs.Ceilings.{DIGITS, COMPONENTS};
ghost use Rattle.word.specs.Lists.{keep};
ghost use Rattle.cell.specs.Cell.{total, at_least, free, vectors, compared_to};
ghost use Rattle.forms.specs.GapRows.{gaps_of, HasVectors};
ghost use Rattle.spacing.specs.Following.{first_vector, Steps};

use word::limits::COMPONENTS;

// The first spacing with k + 1 components and total t: all of the total in the last component.
pub fn first_spacing(k: usize, t: u8) -> [u8; COMPONENTS]
    requires { k < COMPONENTS }
    ensures { take (k + 1) result ≡ first_vector k t }
{
    let mut g = [0u8; COMPONENTS];
    g[k] = t;
    g
}

// The spacing that comes next, if any: the last component that is not 0 gives one to the component
// before it, and the rest of it goes to the end.
pub fn next_spacing(g: [u8; COMPONENTS], k: usize) -> Option<[u8; COMPONENTS]>
    requires { (k < COMPONENTS) × (total (take (k + 1) g) < 256) }
    ensures { Steps g k result }
{
    for j in (1..k + 1).rev() {
        let r = g[j];
        if r != 0 {
            let mut n = g;
            n[j] = 0;
            n[j - 1] = g[j - 1] + 1;
            n[k] = r - 1;
            return Some(n);
        }
    }
    None
}

// Whether g is at least b in each component; they have equally many.
fn reaches(g: &[u8], b: &[u8]) -> bool
    requires { length g.now ≡ length b.now }
    ensures { result ≡ at_least g.now b.now }
{
    for p in 0..b.len() {
        if g[p] < b[p] {
            return false;
        }
    }
    true
}

// Whether g is at least b in each of its k + 1 components.
pub fn at_least(g: [u8; COMPONENTS], b: [u8; COMPONENTS], k: usize) -> bool
    requires { k < COMPONENTS }
    ensures { result ≡ at_least (take (k + 1) g) (take (k + 1) b) }
{
    reaches(&g[..k + 1], &b[..k + 1])
}

// Whether g is at least none of the first n gap vectors.
pub fn is_free(gaps: &[u8], n: usize, k: usize, g: [u8; COMPONENTS]) -> bool
    requires { (k < COMPONENTS) × HasVectors gaps.now n }
    ensures { result ≡ free (gaps_of gaps.now (k + 1) n) (take (k + 1) g) }
{
    for j in 0..n {
        let at = COMPONENTS * j;
        if reaches(&g[..k + 1], &gaps[at..at + k + 1]) {
            return false;
        }
    }
    true
}

// How many spacings of total t are at least none of the first n gap vectors.
fn free_count(gaps: &[u8], n: usize, k: usize, t: u8) -> usize
    requires { (k < COMPONENTS) × (t < DIGITS) × HasVectors gaps.now n }
    ensures { result ≡ length (keep (free (gaps_of gaps.now (k + 1) n)) (vectors (suc k) t)) }
{
    let mut g = first_spacing(k, t);
    let mut count: usize = 0;
    loop {
        if is_free(gaps, n, k, g) {
            count += 1;
        }
        let Some(next) = next_spacing(g, k) else {
            return count;
        };
        g = next;
    }
}

// How many spacings are compared for an entry of length k: those with a total below m that are at
// least none of the first n gap vectors.
pub fn compared_count(m: usize, k: usize, gaps: &[u8], n: usize) -> usize
    requires { (k < COMPONENTS) × (m ≤ DIGITS) × HasVectors gaps.now n }
    ensures { result ≡ length (compared_to m k (gaps_of gaps.now (k + 1) n)) }
{
    let mut count: usize = 0;
    for t in 0..m {
        count += free_count(gaps, n, k, t as u8);
    }
    count
}
