// A cursor over the cells of the table: it is at one cell, and moves on to the next spacing, the
// next entry of this length, the next smaller length that has cells, the next row.
ghost use Rattle.std.specs.Prelude.{◌+◌, ◌≤◌, ◌<◌, ◌≡◌, length};
ghost use Rattle.word.specs.Ceilings.{ENTRIES, PREFIX, LENGTH};
ghost use Rattle.spacing.specs.Pascal.{Pascal};
ghost use Rattle.count_plan.specs.SheetSizes.{SHEET};
ghost use Rattle.count_plan.specs.SheetRows.{field_of};
ghost use Rattle.count_cursor.specs.Cursor.{Listed, FindsFrom, FindsBelow, Top, Starts, StartsRow};
ghost use Rattle.count_cursor.specs.Cursor.{CursorGiven, GoesToNext, GoesOn};

use count_plan::reading::field;
use spacing::binomials::choose;
use spacing::first_spacing;
use spacing::walk::next_cell;
use word::limits::{COMPONENTS, PREFIX};

// A cell of the table: its row, its entry, its spacing, and the rank of the spacing.
#[derive(Clone, Copy)]
pub struct Cursor {
    pub row: usize,
    pub entry: usize,
    pub rank: usize,
    pub spacing: [u8; COMPONENTS],
}

// One more than the length of the longest prefixes.
const PAST: usize = PREFIX + 1;

// The first entry of length k from an index on; the number of entries where there is none.
fn entry_from(sheet: &[u8], entries: usize, k: usize, from: usize) -> usize
    requires { Listed sheet.now entries × (from ≤ entries) }
    ensures { FindsFrom sheet.now entries k from result }
{
    for e in from..entries {
        if field(sheet, e, 0) == k {
            return e;
        }
    }
    entries
}

// The first of the longest entries that are shorter than k; the number of entries where there is
// none.
fn entry_below(sheet: &[u8], entries: usize, k: usize) -> usize
    requires { Listed sheet.now entries × (k ≤ PREFIX + 1) }
    ensures { FindsBelow sheet.now entries k result }
{
    for l in (0..k).rev() {
        let e = entry_from(sheet, entries, l, 0);
        if e < entries {
            return e;
        }
    }
    entries
}

// One more than the length of the longest entries that can have cells in a row.
fn longest(row: usize) -> usize
    ensures { Top row result }
{
    if row < PREFIX { row + 1 } else { PAST }
}

// At the first cell of an entry in a row.
fn entry_start(sheet: &[u8], row: usize, e: usize) -> Cursor
    requires { (e < ENTRIES) × (length sheet.now ≡ SHEET) × (field_of sheet.now e 0 ≤ PREFIX) ×
        (field_of sheet.now e 0 ≤ row) × (row ≤ LENGTH + 1) }
    ensures { Starts sheet.now row e result }
{
    let k = field(sheet, e, 0);
    let g = first_spacing(k, (row - k) as u8);
    Cursor {
        row: row,
        entry: e,
        rank: 0,
        spacing: g,
    }
}

// At the first cell of a row.
pub fn row_start(sheet: &[u8], entries: usize, row: usize) -> Cursor
    requires { Listed sheet.now entries × (row ≤ LENGTH + 1) }
    ensures { StartsRow sheet.now entries row result }
{
    let e = entry_below(sheet, entries, longest(row));
    entry_start(sheet, row, e)
}

// At the first cell of the entry that comes next: one of this length, one of the next smaller
// length that has cells, or the first of the next row.
pub fn next_entry(sheet: &[u8], entries: usize, c: Cursor) -> Cursor
    requires { CursorGiven sheet.now entries c }
    ensures { GoesToNext sheet.now entries c result }
{
    let k = field(sheet, c.entry, 0);
    let e = entry_from(sheet, entries, k, c.entry + 1);
    if e < entries {
        return entry_start(sheet, c.row, e);
    }
    let d = entry_below(sheet, entries, k);
    if d < entries {
        return entry_start(sheet, c.row, d);
    }
    row_start(sheet, entries, c.row + 1)
}

// At the cell that comes next.
pub fn moved_on(sheet: &[u8], entries: usize, c: Cursor, b: &[usize]) -> Cursor
    requires { CursorGiven sheet.now entries c × Pascal b.now }
    ensures { GoesOn sheet.now entries c result }
{
    let k = field(sheet, c.entry, 0);
    if c.rank + 1 < choose(b, c.row, k) {
        let mut g = c.spacing;
        next_cell(&mut g, k);
        return Cursor {
            row: c.row,
            entry: c.entry,
            rank: c.rank + 1,
            spacing: g,
        };
    }
    next_entry(sheet, entries, c)
}
