// Numbers of the table added to figures, moved up; figures written over the table.
ghost use Rattle.std.specs.Prelude.{◌≡◌, ◌+◌, ◌*◌, ◌-◌, min, ◌≤◌, length, take, drop};
ghost use Rattle.word.specs.Ceilings.{FIGURES};
ghost use Rattle.spacing.specs.Sizes.{CHOICES, FAR};
ghost use Rattle.text_page.specs.Page.{overlay};
ghost use Rattle.count_figures.specs.Figures.{moved_at};
ghost use Rattle.count_figures.specs.Adding.{Adds};

use count_step::cells::store;
use count_step::sums::capped_sum;

// How many of n numbers from a place on stand in a table of this length.
fn in_reach(length: usize, from: usize, n: usize) -> usize
    ensures { result ≡ min n (length - from) }
{
    n.min(length.saturating_sub(from))
}

// Adds n numbers of the table, from a place on, to the figures from d on.
pub fn add_moved(figures: &mut [u64], table: &[u64], from: usize, d: usize, n: usize)
    requires { d + n ≤ length figures.old }
    ensures { Adds figures.old figures.new (moved_at d (take n (drop from table.now))) }
{
    let count = in_reach(table.len(), from, n);
    for i in 0..count {
        let x = capped_sum(figures[d + i], table[from + i]);
        figures[d + i] = x;
    }
}

// Writes the first n figures over the table from a place on; nothing behind its end.
pub fn put_figures(table: &mut [u64], at: usize, figures: &[u64], n: usize)
    requires { (n ≤ length figures.now) × (n ≤ FIGURES) × (at ≤ FIGURES * (FAR + CHOICES)) }
    ensures { table.new ≡ overlay at (take n figures.now) table.old }
{
    for i in 0..n {
        let x = figures[i];
        store(table, at + i, x);
    }
}
