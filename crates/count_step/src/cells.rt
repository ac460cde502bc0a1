// The value of one cell, from the cells that are filled already.
ghost use Rattle.std.specs.Prelude.{◌≡◌, ◌+◌, ◌≤◌, ◌<◌, get_or, set, take};
ghost use Rattle.word.specs.Ceilings.{PREFIX, LENGTH, COUNTS, COLUMNS};
ghost use Rattle.cell.specs.Cell.{total};
ghost use Rattle.spacing.specs.Pascal.{Pascal};
ghost use Rattle.count_step.specs.Step.{capped};
ghost use Rattle.count_step.specs.Sums.{part_places, places_of, sum_of};
ghost use Rattle.count_step.specs.Task.{Near, TaskFits, TaskGaps, spacing_in, task_step, REACH};

use crate::sums::capped_sum;
use spacing::binomials::choose;
use spacing::is_free;
use spacing::walk::{rank_after, rank_without};
use word::limits::{COMPONENTS, LINKS};

// What the cells of one entry at one length share: the entry's length and the total of its
// spacings; how many positions the entry deletes, 0 where it expands, and the flags of the values
// there; what an expanding entry has at total 0; where in the table the cells of its children, or
// of its target, begin; the number of its gap vectors.
#[derive(Clone, Copy)]
pub struct Task {
    pub length: usize,
    pub total: usize,
    pub deleted: usize,
    pub gone: [u8; COMPONENTS],
    pub alone: u64,
    pub links: [usize; LINKS],
    pub gap_count: usize,
}

// The cell with index i; 0 behind the end.
pub fn read(table: &[u64], i: usize) -> u64
    ensures { result ≡ get_or table.now i 0 }
{
    table.get(i).copied().unwrap_or(0)
}

// Stores x at index i; nothing behind the end.
pub fn store(table: &mut [u64], i: usize, x: u64)
    ensures { table.new ≡ set table.old i x }
{
    if i < table.len() {
        table[i] = x;
    }
}

// The sum of the cells at `at` + C(z, col) for the n values z from `first` on.
fn part_sum(table: &[u64], at: usize, col: usize, first: usize, n: usize, b: &[usize]) -> u64
    requires { (at ≤ REACH) × (col < COLUMNS) × (first + n ≤ COUNTS) × Pascal b.now }
    ensures { result ≡ capped (sum_of table.now (part_places at col first n)) }
{
    let mut sum: u64 = 0;
    for z in first..first + n {
        let x = read(table, at + choose(b, z, col));
        sum = capped_sum(sum, x);
    }
    sum
}

// The sum over every next entry: component by component, the cells of the child that belongs to it.
// Each value of a component joins the values before, whose binomials stay (`below`), and those
// behind it, which are now counted as one more (`above`).
fn child_sum(
    table: &[u64],
    links: [usize; LINKS],
    g: [u8; COMPONENTS],
    k: usize,
    b: &[usize],
) -> u64
    requires { (k ≤ PREFIX) × (k + total (take (k + 1) g) ≤ LENGTH) × Near links × Pascal b.now }
    ensures { result ≡ capped (sum_of table.now (places_of links (take (k + 1) g))) }
{
    let mut above = rank_after(g, k, 1, b);
    let mut below: usize = 0;
    let mut z: usize = 0;
    let mut sum: u64 = 0;
    for i in 0..k {
        let x = usize::from(g[i]);
        let part = part_sum(table, links[i] + (below + above), i + 1, z, x, b);
        sum = capped_sum(sum, part);
        z += x;
        below += choose(b, z, i + 1);
        above -= choose(b, z, i + 2);
        z += 1;
    }
    let last = usize::from(g[k]);
    let end = part_sum(table, links[k] + below, k + 1, z, last, b);
    capped_sum(sum, end)
}

// The value at the spacing g: 0 where a gap vector covers it; else, for a deleting entry, the value
// at its target, and for an expanding entry the sum over every next entry.
pub fn value_at(table: &[u64], task: Task, gaps: &[u8], g: [u8; COMPONENTS], b: &[usize]) -> u64
    requires { TaskFits task × TaskGaps task gaps.now × (total (spacing_in task.length g) ≡ task.total) × Pascal b.now }
    ensures { result ≡ task_step task gaps.now table.now (spacing_in task.length g) }
{
    let k = task.length;
    if !is_free(gaps, task.gap_count, k, g) {
        return 0;
    }
    let links = task.links;
    if task.deleted != 0 {
        let gone = task.gone;
        let rank = rank_without(g, k, gone, b);
        return read(table, links[0] + rank);
    }
    if task.total == 0 {
        return task.alone;
    }
    child_sum(table, links, g, k, b)
}
