// The cells of one entry in one row, filled with their figures.
ghost use Rattle.std.specs.Prelude.{◌≡◌, ◌≤◌};
ghost use Rattle.word.specs.Ceilings.{REFINED};
ghost use Rattle.spacing.specs.Pascal.{Pascal};
ghost use Rattle.count_entry.specs.Frames.{CellGiven};
ghost use Rattle.count_figure_rows.specs.FigureRows.{figure_task, EntryFigured};

use count_cursor::cursor::Cursor;
use count_entry::entry::work_of;
use count_entry::frame::Frame;
use count_figures::children::FigureTask;
use count_figures::filling::fill_figures;
use count_figures::sizes::figure_count;
use count_plan::reading::gaps_of;
use count_step::cells::Task;

// What the steps of an entry are given, in cells that hold the figures of the largest length.
fn figure_task(task: Task, last: usize) -> FigureTask
    requires { (task.total ≤ REFINED) × (last ≤ REFINED) }
    ensures { result ≡ figure_task task last }
{
    let numbers = figure_count(last);
    let figures = figure_count(task.total);
    FigureTask {
        task: task,
        numbers: numbers,
        figures: figures,
    }
}

// Fills the cells of the cursor's entry in its row.
pub fn fill_entry(
    table: &mut [u64],
    sheet: &[u8],
    places: &[usize],
    f: Frame,
    c: Cursor,
    b: &[usize],
)
    requires { CellGiven sheet.now places.now f c × (f.last ≤ REFINED) × Pascal b.now }
    ensures { EntryFigured sheet.now places.now f c table.old table.new }
{
    let w = work_of(sheet, places, f, c, b);
    let gaps = gaps_of(sheet, c.entry);
    let task = w.task;
    let work = figure_task(task, f.last);
    fill_figures(table, w.at, w.size, work, gaps, b);
}
