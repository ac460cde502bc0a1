// The spacings of a child and of a target.
ghost use Rattle.std.specs.Prelude.{◌≡◌, cond, ◌+◌, ◌≤◌, ◌<◌, get_or, take, eqb};
ghost use Rattle.word.specs.Ceilings.{PREFIX, COMPONENTS, LENGTH};
ghost use Rattle.cell.specs.Cell.{total, merge_values};
ghost use Rattle.spacing.specs.Flagged.{flagged};
ghost use Rattle.count_plain.specs.Pieces.{split_at, Begins, HeldAt};

use word::limits::COMPONENTS;

// The component that holds a value, and its number there, from 1.
#[derive(Clone, Copy)]
pub struct Place {
    pub index: usize,
    pub left: usize,
}

// Where the s-th of the values that the first entries leave is held.
pub fn held(g: [u8; COMPONENTS], k: usize, s: usize) -> Place
    requires { (k ≤ PREFIX) × (1 ≤ s) × (s ≤ total (take (k + 1) g)) }
    ensures { HeldAt (take (k + 1) g) k s result.index result.left }
{
    let mut left = s;
    for i in 0..k {
        let x = usize::from(g[i]);
        if left <= x {
            return Place {
                index: i,
                left: left,
            };
        }
        left -= x;
    }
    Place {
        index: k,
        left: left,
    }
}

// One component of the child's spacing.
fn split_piece(g: [u8; COMPONENTS], i: usize, left: usize, j: usize) -> u8
    requires { (i < COMPONENTS) × (j < COMPONENTS) × (1 ≤ left) × (left ≤ get_or g i 0) × (get_or g i 0 ≤ LENGTH) }
    ensures { result ≡ get_or (split_at g i left) j 0 }
{
    if j < i {
        return g[j];
    }
    if j == i {
        return (left - 1) as u8;
    }
    if j == i + 1 {
        return g[i] - left as u8;
    }
    g[j - 1]
}

// The spacing of the child whose new value is the one with number `left` in component i.
pub fn split_spacing(g: [u8; COMPONENTS], k: usize, i: usize, left: usize) -> [u8; COMPONENTS]
    requires { (k < PREFIX) × (i ≤ k) × (1 ≤ left) × (left ≤ get_or (take (k + 1) g) i 0) × (total (take (k + 1) g) ≤ LENGTH) }
    ensures { take (k + 2) result ≡ split_at (take (k + 1) g) i left }
{
    let mut r = g;
    for j in 0..k + 2 {
        let x = split_piece(g, i, left, j);
        r[j] = x;
    }
    r
}

// How many values are flagged, with one flag more.
fn flagged_with(n: usize, flag: u8) -> usize
    requires { n < COMPONENTS }
    ensures { result ≡ cond (eqb flag 0) n (n + 1) }
{
    if flag == 0 { n } else { n + 1 }
}

// The spacing of the target: the components around each flagged value are added into one. Behind v
// values of which n are flagged, a component goes to place v - n.
pub fn merged_spacing(g: [u8; COMPONENTS], k: usize, gone: [u8; COMPONENTS]) -> [u8; COMPONENTS]
    requires { (k ≤ PREFIX) × (total (take (k + 1) g) ≤ LENGTH) }
    ensures { Begins (merge_values (flagged gone k) (take (k + 1) g)) result }
{
    let mut r = [0u8; COMPONENTS];
    r[0] = g[0];
    let mut n: usize = 0;
    for v in 1..k + 1 {
        n = flagged_with(n, gone[v]);
        let at = v - n;
        r[at] = r[at] + g[v];
    }
    r
}
