// All rows up to a length, the values at ε, and the table afterwards.
ghost use Rattle.std.specs.Prelude.{◌≡◌, ◌*◌, ◌≤◌, length};
ghost use Rattle.spacing.specs.Pascal.{Pascal};
ghost use Rattle.count_rows.specs.Rows.{RootGiven};
ghost use Rattle.count_rows.specs.Run.{cleared, LastValue, Values};

use crate::rows::{CountPass, fill_row, fill_rows};
use crate::values::{root_cell, value_in};
use count_entry::frame::{Frame, need};
use word::limits::COUNTS;

// Sets the first m cells to 0.
pub fn clear(table: &mut [u64], m: usize)
    requires { m ≤ length table.old }
    ensures { table.new ≡ cleared m table.old }
{
    table[..m].fill(0);
}

// The value at ε in the last row. The needed cells of the table hold 0 afterwards, the others what
// they held.
pub fn last_value(
    table: &mut [u64],
    sheet: &[u8],
    places: &[usize],
    f: Frame,
    root: usize,
    b: &[usize],
) -> u64
    requires { RootGiven sheet.now places.now f root × (f.rows * f.width ≤ length table.old) × Pascal b.now }
    ensures value { LastValue sheet.now places.now f root table.old result }
    ensures table { table.new ≡ cleared (f.rows * f.width) table.old }
{
    let last = f.last;
    fill_rows::<CountPass>(table, sheet, places, f, last, b);
    let cell = root_cell(root, last);
    let x = value_in(table, sheet, places, f, cell, b);
    clear(table, need(f));
    x
}

// The values at ε in all rows, and zeros; the table as above.
pub fn all_values(
    table: &mut [u64],
    sheet: &[u8],
    places: &[usize],
    f: Frame,
    root: usize,
    b: &[usize],
) -> [u64; COUNTS]
    requires { RootGiven sheet.now places.now f root × (f.rows * f.width ≤ length table.old) × Pascal b.now }
    ensures values { Values sheet.now places.now f root table.old result }
    ensures table { table.new ≡ cleared (f.rows * f.width) table.old }
{
    let last = f.last;
    let mut counts = [0u64; COUNTS];
    for j in 0..last + 1 {
        fill_row::<CountPass>(table, sheet, places, f, j, b);
        let cell = root_cell(root, j);
        let x = value_in(table, sheet, places, f, cell, b);
        counts[j] = x;
    }
    clear(table, need(f));
    counts
}
