// The figures of one cell, added up from the cells that are filled already.
ghost use Rattle.std.specs.Prelude.{◌≡◌, map, ℕ, ◌+◌, length, get_or, take};
ghost use Rattle.word.specs.Ceilings.{FIGURES};
ghost use Rattle.cell.specs.Cell.{total};
ghost use Rattle.spacing.specs.Pascal.{Pascal};
ghost use Rattle.count_step.specs.Sums.{part_places, places_of};
ghost use Rattle.count_step.specs.Task.{TaskGaps, spacing_in};
ghost use Rattle.count_figures.specs.Figures.{spread_at};
ghost use Rattle.count_figures.specs.Adding.{Adds};
ghost use Rattle.count_figures.specs.Steps.{numbers_from, PartFits, ChildrenFit, FigureTaskFits, figure_step};

use crate::adding::add_moved;
use count_step::cells::Task;
use spacing::binomials::choose;
use spacing::is_free;
use spacing::walk::{rank_after, rank_without};
use word::limits::COMPONENTS;

// How many numbers a cell of the table is, and how many figures the cell of a child has.
#[derive(Clone, Copy)]
pub struct Shape {
    pub numbers: usize,
    pub figures: usize,
}

// The children whose next entry lies in one component of a spacing: their cells stand at `at` +
// C(z, col) for so many values z from `first` on. The figures of the first of them are moved up by
// `moved`, those of each other by one more than those of the one before.
#[derive(Clone, Copy)]
pub struct Part {
    pub at: usize,
    pub col: usize,
    pub first: usize,
    pub values: usize,
    pub moved: usize,
}

// Adds the figures of the children in one component.
fn add_part(figures: &mut [u64], table: &[u64], part: Part, shape: Shape, b: &[usize])
    requires { PartFits part shape (length figures.old) × Pascal b.now }
    ensures { Adds figures.old figures.new (spread_at part.moved
        (map (numbers_from shape table.now) (part_places part.at part.col part.first part.values))) }
{
    let mut d = part.moved;
    for z in part.first..part.first + part.values {
        let cell = part.at + choose(b, z, part.col);
        add_moved(figures, table, shape.numbers * cell, d, shape.figures);
        d += 1;
    }
}

// Adds the figures of all children, component by component: each value of a component joins the
// values before, whose binomials stay (`below`), and those behind it, which are now counted as one
// more (`above`).
pub fn add_children(
    figures: &mut [u64],
    table: &[u64],
    task: Task,
    shape: Shape,
    g: [u8; COMPONENTS],
    b: &[usize],
)
    requires { ChildrenFit task shape (spacing_in task.length g) (length figures.old) × Pascal b.now }
    ensures { Adds figures.old figures.new (spread_at 0
        (map (numbers_from shape table.now) (places_of task.links (spacing_in task.length g)))) }
{
    let k = task.length;
    let links = task.links;
    let mut above = rank_after(g, k, 1, b);
    let mut below: usize = 0;
    let mut moved: usize = 0;
    let mut z: usize = 0;
    for i in 0..k {
        let x = usize::from(g[i]);
        let part = Part {
            at: links[i] + (below + above),
            col: i + 1,
            first: z,
            values: x,
            moved: moved,
        };
        add_part(figures, table, part, shape, b);
        moved += x;
        z += x;
        below += choose(b, z, i + 1);
        above -= choose(b, z, i + 2);
        z += 1;
    }
    let last = usize::from(g[k]);
    let end = Part {
        at: links[k] + below,
        col: k + 1,
        first: z,
        values: last,
        moved: moved,
    };
    add_part(figures, table, end, shape, b);
}

// What the steps of an entry share, how many numbers a cell of the table is, and how many figures
// the cells of the entry have.
#[derive(Clone, Copy)]
pub struct FigureTask {
    pub task: Task,
    pub numbers: usize,
    pub figures: usize,
}

// The figures of the cell at the spacing g, in place of zeros: none where a gap vector covers it;
// else, for a deleting entry, those of its target, and for an expanding entry those of its children
// added up.
pub fn add_figures(
    figures: &mut [u64],
    table: &[u64],
    work: FigureTask,
    gaps: &[u8],
    g: [u8; COMPONENTS],
    b: &[usize],
)
    requires { FigureTaskFits work × TaskGaps work.task gaps.now × (total (spacing_in work.task.length g) ≡ work.task.total) ×
        Pascal b.now × (length figures.old ≡ FIGURES) × ((q : ℕ) → get_or figures.old q 0 ≡ 0) }
    ensures { take work.figures figures.new ≡
        figure_step work gaps.now table.now (spacing_in work.task.length g) }
{
    let task = work.task;
    let k = task.length;
    if !is_free(gaps, task.gap_count, k, g) {
        return;
    }
    if task.deleted != 0 {
        let links = task.links;
        let gone = task.gone;
        let rank = rank_without(g, k, gone, b);
        add_moved(
            figures,
            table,
            work.numbers * (links[0] + rank),
            0,
            work.figures,
        );
        return;
    }
    if task.total == 0 {
        figures[0] = task.alone;
        return;
    }
    let shape = Shape {
        numbers: work.numbers,
        figures: work.figures - (task.total - 1),
    };
    add_children(figures, table, task, shape, g, b);
}
