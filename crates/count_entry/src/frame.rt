// The layout of a table: which rows it keeps, and where each begins.
ghost use Rattle.std.specs.Prelude.{◌≡◌, ◌-◌, ◌*◌, ◌%◌, ◌≤◌};
ghost use Rattle.spacing.specs.Sizes.{BLOCKS};
ghost use Rattle.count_entry.specs.Frames.{FrameFits, frame_of};

use count_plan::places::place_at;

// The largest length, the number of cells of a row, how many rows are kept, and the number of
// entries.
#[derive(Clone, Copy)]
pub struct Frame {
    pub last: usize,
    pub width: usize,
    pub rows: usize,
    pub entries: usize,
}

// The layout of the table that keeps so many rows, for the lengths up to n, by the places of the
// entries in a row.
pub fn frame_of(places: &[usize], n: usize, entries: usize, rows: usize) -> Frame
    ensures { result ≡ frame_of places.now n entries rows }
{
    Frame {
        last: n,
        width: place_at(places, entries),
        rows: rows,
        entries: entries,
    }
}

// The number of cells that a table needs.
pub fn need(f: Frame) -> usize
    requires { FrameFits f }
    ensures { result ≡ f.rows * f.width }
{
    f.rows * f.width
}

// Where the row begins that comes `back` rows before the row of length j.
pub fn block_of(f: Frame, j: usize, back: usize) -> usize
    requires { FrameFits f × (back ≤ j) }
    ensures { (result ≡ (j - back) % f.rows * f.width) × (result ≤ BLOCKS) }
{
    let row = (j - back) % f.rows;
    row * f.width
}
