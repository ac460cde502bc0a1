// Filling the cells of one entry at one length, in the order of their ranks.
ghost use Rattle.std.specs.Prelude.{◌≡◌, ◌+◌, ◌≤◌, set};
ghost use Rattle.cell.specs.Cell.{total};
ghost use Rattle.cell.specs.Binomial.{binomial};
ghost use Rattle.spacing.specs.Sizes.{FAR};
ghost use Rattle.spacing.specs.Pascal.{Pascal};
ghost use Rattle.spacing.specs.Following.{first_vector};
ghost use Rattle.count_step.specs.Step.{spacings_from, stored_at};
ghost use Rattle.count_step.specs.Task.{TaskFits, TaskGaps, spacing_in, task_step};

use crate::cells::{Task, store, value_at};
use spacing::first_spacing;
use spacing::walk::next_cell;
use word::limits::COMPONENTS;

// One step: fills one cell and changes no other.
pub fn fill_one(
    table: &mut [u64],
    at: usize,
    task: Task,
    gaps: &[u8],
    g: [u8; COMPONENTS],
    b: &[usize],
)
    requires { TaskFits task × TaskGaps task gaps.now × (total (spacing_in task.length g) ≡ task.total) × Pascal b.now }
    ensures { table.new ≡ set table.old at
        (task_step task gaps.now table.old (spacing_in task.length g)) }
{
    let x = value_at(table, task, gaps, g, b);
    store(table, at, x);
}

// The cells of one entry at one length, `size` of them from `at` on: a step at each spacing, in the
// order of their ranks. The next spacing is made before the step: the copy that a step is handed
// waits until its bytes are stored, which then do not wait for the step before.
pub fn fill_cells(table: &mut [u64], at: usize, size: usize, task: Task, gaps: &[u8], b: &[usize])
    requires { TaskFits task × TaskGaps task gaps.now ×
        (size ≡ binomial (task.length + task.total) task.length) × (at ≤ FAR) × Pascal b.now }
    ensures { table.new ≡ stored_at set (task_step task gaps.now) at
        (spacings_from size (first_vector task.length task.total)) table.old }
{
    let k = task.length;
    let mut next = first_spacing(k, task.total as u8);
    for p in 0..size {
        let g = next;
        next_cell(&mut next, k);
        fill_one(table, at + p, task, gaps, g, b);
    }
}
