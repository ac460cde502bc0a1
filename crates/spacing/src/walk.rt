// The rank of a spacing, and the spacing that comes next by rank.
ghost use Rattle.std.specs.Prelude.{◌≡◌, ◌+◌, ◌≤◌, length, take};
ghost use Rattle.word.specs.Ceilings.{PREFIX, COMPONENTS, LENGTH};
ghost use Rattle.cell.specs.Cell.{total, merge_values};
ghost use Rattle.spacing.specs.Sizes.{RANKS};
ghost use Rattle.spacing.specs.Flagged.{flagged};
ghost use Rattle.spacing.specs.Rank.{rank_after, rank_of, next_of};
ghost use Rattle.spacing.specs.Pascal.{Pascal};

use crate::binomials::choose;
use word::limits::COMPONENTS;

// The rank of the spacing, where `start` values more come before its values: each is then counted
// as if so many came before it. With a `start` of 0 it is the rank itself.
pub fn rank_after(g: [u8; COMPONENTS], k: usize, start: usize, b: &[usize]) -> usize
    requires { (k ≤ PREFIX) × (start ≤ 1) × (k + total (take (k + 1) g) ≤ LENGTH) × Pascal b.now }
    ensures { (result ≡ rank_after start 0 (take (k + 1) g)) × (result ≤ RANKS) }
{
    let mut z = usize::from(g[0]);
    let mut count = start;
    let mut rank: usize = 0;
    for t in 1..k + 1 {
        let y = usize::from(g[t]);
        count += 1;
        rank += choose(b, z, count);
        z = z + 1 + y;
    }
    rank
}

// The rank of the spacing without the flagged values: for each such value v the components v - 1
// and v are added into one.
pub fn rank_without(g: [u8; COMPONENTS], k: usize, gone: [u8; COMPONENTS], b: &[usize]) -> usize
    requires { (k ≤ PREFIX) × (k + total (take (k + 1) g) ≤ LENGTH) × Pascal b.now }
    ensures { (result ≡ rank_of (merge_values (flagged gone k) (take (k + 1) g))) × (result ≤ RANKS) }
{
    let mut z = usize::from(g[0]);
    let mut count: usize = 0;
    let mut rank: usize = 0;
    for v in 1..k + 1 {
        let y = usize::from(g[v]);
        let flag = gone[v];
        if flag != 0 {
            z += y;
        } else {
            count += 1;
            rank += choose(b, z, count);
            z = z + 1 + y;
        }
    }
    rank
}

// Changes a spacing into the one that comes next; the last one into the first. It is changed in
// place: a copy of bytes that were just stored one by one would wait for each of them.
pub fn next_cell(g: &mut [u8], k: usize)
    requires { (k ≤ PREFIX) × (length g.old ≡ COMPONENTS) × (total (take (k + 1) g.old) ≤ LENGTH) }
    ensures { take (k + 1) g.new ≡ next_of (take (k + 1) g.old) }
{
    let first = g[0];
    g[0] = 0;
    for i in 1..k + 1 {
        let y = g[i];
        if y != 0 {
            g[i] = y - 1;
            g[i - 1] = first + 1;
            return;
        }
    }
    g[k] = first;
}
