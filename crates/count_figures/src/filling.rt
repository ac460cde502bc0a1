// Filling the cells of one entry at one length with their figures, in the order of their ranks.
ghost use Rattle.std.specs.Prelude.{◌≡◌, ◌+◌, ◌≤◌};
ghost use Rattle.cell.specs.Cell.{total};
ghost use Rattle.cell.specs.Binomial.{binomial};
ghost use Rattle.spacing.specs.Sizes.{FAR, CHOICES};
ghost use Rattle.spacing.specs.Pascal.{Pascal};
ghost use Rattle.spacing.specs.Following.{first_vector};
ghost use Rattle.count_step.specs.Step.{spacings_from, stored_at};
ghost use Rattle.count_step.specs.Task.{TaskGaps, spacing_in};
ghost use Rattle.count_figures.specs.Figures.{put_figures};
ghost use Rattle.count_figures.specs.Steps.{FigureTaskFits, figure_step};

use crate::adding::put_figures;
use crate::children::{FigureTask, add_figures};
use spacing::first_spacing;
use spacing::walk::next_cell;
use word::limits::{COMPONENTS, FIGURES};

// One step: fills one cell and changes no other.
pub fn fill_one(
    table: &mut [u64],
    at: usize,
    work: FigureTask,
    gaps: &[u8],
    g: [u8; COMPONENTS],
    b: &[usize],
)
    requires { FigureTaskFits work × TaskGaps work.task gaps.now × (total (spacing_in work.task.length g) ≡ work.task.total) ×
        Pascal b.now × (at ≤ FAR + CHOICES) }
    ensures { table.new ≡ put_figures work.numbers table.old at
        (figure_step work gaps.now table.old (spacing_in work.task.length g)) }
{
    let mut figures = [0u64; FIGURES];
    add_figures(&mut figures, table, work, gaps, g, b);
    put_figures(table, work.numbers * at, &figures, work.figures);
}

// The cells of one entry at one length, `size` of them from `at` on: a step at each spacing, in the
// order of their ranks. The next spacing is made before the step, as in counting.
pub fn fill_figures(
    table: &mut [u64],
    at: usize,
    size: usize,
    work: FigureTask,
    gaps: &[u8],
    b: &[usize],
)
    requires { FigureTaskFits work × TaskGaps work.task gaps.now ×
        (size ≡ binomial (work.task.length + work.task.total) work.task.length) × (at ≤ FAR) × Pascal b.now }
    ensures { table.new ≡ stored_at (put_figures work.numbers) (figure_step work gaps.now) at
        (spacings_from size (first_vector work.task.length work.task.total)) table.old }
{
    let task = work.task;
    let k = task.length;
    let mut next = first_spacing(k, task.total as u8);
    for p in 0..size {
        let g = next;
        next_cell(&mut next, k);
        fill_one(table, at + p, work, gaps, g, b);
    }
}
