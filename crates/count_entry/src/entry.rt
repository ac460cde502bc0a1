// The cells of one entry in one row, all of them or the one that the cursor is at.
ghost use Rattle.std.specs.Prelude.{◌≡◌, map, ℕ, ◌+◌, ◌≤◌, ◌<◌, length, get_or};
ghost use Rattle.word.specs.Ceilings.{ENTRIES};
ghost use Rattle.spacing.specs.Sizes.{NEAR, BLOCKS};
ghost use Rattle.spacing.specs.Pascal.{Pascal};
ghost use Rattle.count_plan.specs.SheetSizes.{SHEET};
ghost use Rattle.count_plan.specs.SheetRows.{links_at};
ghost use Rattle.count_entry.specs.Frames.{CellGiven, task_at, WorkFor, CellWalked, EntryWalked};

use crate::frame::{Frame, block_of};
use count_cursor::cursor::Cursor;
use count_plan::places::place_at;
use count_plan::reading::{field, gaps_of, gone_of};
use count_plan::sheet::FIELDS;
use count_step::cells::Task;
use count_step::filling::{fill_cells, fill_one};
use spacing::binomials::choose;
use word::limits::LINKS;

// Where the cells of each entry begin that the links of an entry name, in the row that begins at
// `offset`.
fn links_from(sheet: &[u8], places: &[usize], e: usize, offset: usize) -> [usize; LINKS]
    requires { (e < ENTRIES) × (length sheet.now ≡ SHEET) × (offset ≤ BLOCKS) ×
        ((a : ℕ) → get_or (links_at sheet.now places.now e) a 0 ≤ NEAR) }
    ensures { result ≡ map (λ x. offset + x) (links_at sheet.now places.now e) }
{
    let mut from = [0usize; LINKS];
    for a in 0..LINKS {
        let place = place_at(places, field(sheet, e, FIELDS + a));
        from[a] = offset + place;
    }
    from
}

// What the steps of the cursor's entry are given in its row. The cells that it reads stand as many
// rows back as it deletes positions: its target's there, its children's in this row.
fn task_of(sheet: &[u8], places: &[usize], f: Frame, c: Cursor) -> Task
    requires { CellGiven sheet.now places.now f c }
    ensures { result ≡ task_at sheet.now places.now f c }
{
    let e = c.entry;
    let k = field(sheet, e, 0);
    let deleted = field(sheet, e, 1);
    let gone = gone_of(sheet, e);
    let alone = field(sheet, e, 2) as u64;
    let count = field(sheet, e, 3);
    let offset = block_of(f, c.row, deleted);
    let links = links_from(sheet, places, e, offset);
    Task {
        length: k,
        total: c.row - k,
        deleted: deleted,
        gone: gone,
        alone: alone,
        links: links,
        gap_count: count,
    }
}

// What a pass over the cells of an entry in a row is given: where they begin, how many there are,
// and what their steps share.
#[derive(Clone, Copy)]
pub struct Work {
    pub at: usize,
    pub size: usize,
    pub task: Task,
}

// The same for the cursor's entry in its row.
pub fn work_of(sheet: &[u8], places: &[usize], f: Frame, c: Cursor, b: &[usize]) -> Work
    requires { CellGiven sheet.now places.now f c × Pascal b.now }
    ensures { WorkFor sheet.now places.now f c result }
{
    let task = task_of(sheet, places, f, c);
    let at = block_of(f, c.row, 0) + place_at(places, c.entry);
    let size = choose(b, c.row, task.length);
    Work {
        at: at,
        size: size,
        task: task,
    }
}

// Fills the cells of the cursor's entry in its row, which is what the cursor does cell by cell.
pub fn fill_entry(
    table: &mut [u64],
    sheet: &[u8],
    places: &[usize],
    f: Frame,
    c: Cursor,
    b: &[usize],
)
    requires { CellGiven sheet.now places.now f c × Pascal b.now }
    ensures { EntryWalked sheet.now places.now f c table.old table.new }
{
    let w = work_of(sheet, places, f, c, b);
    let gaps = gaps_of(sheet, c.entry);
    let task = w.task;
    fill_cells(table, w.at, w.size, task, gaps, b);
}

// Fills the cell that the cursor is at.
pub fn fill_cell(
    table: &mut [u64],
    sheet: &[u8],
    places: &[usize],
    f: Frame,
    c: Cursor,
    b: &[usize],
)
    requires { CellGiven sheet.now places.now f c × Pascal b.now }
    ensures { CellWalked sheet.now places.now f c table.old table.new }
{
    let w = work_of(sheet, places, f, c, b);
    let gaps = gaps_of(sheet, c.entry);
    let task = w.task;
    let g = c.spacing;
    fill_one(table, w.at + c.rank, task, gaps, g, b);
}
