// The rows of the table. The value at the entry with index d and the spacing g stands, in the row
// of length j, in the cell with index (j mod rows) * width + place + rank: `rows` is how many rows
// are kept, `width` the sum of C(n, k) over all entries, `place` that over the entries before d,
// and `rank` the rank of g. Longer entries come first, so that children are there before their
// parents; targets stand in a row before.
ghost use Rattle.std.specs.Prelude.{ℕ, ◌≤◌, List};
ghost use Rattle.word.specs.Ceilings.{LENGTH};
ghost use Rattle.spacing.specs.Pascal.{Pascal};
ghost use Rattle.count_walk.specs.Content.{Content, Sound, single};
ghost use Rattle.count_walk.specs.Walk.{Makes, count_makes};
ghost use Rattle.count_walk.proofs.SolutionLaws.{single_sound};
ghost use Rattle.count_entry.specs.Frames.{Framed, CellGiven};
ghost use Rattle.count_rows.specs.Rows.{EntryPassed, RowPassed, RowsPassed};

use count_cursor::cursor::{Cursor, next_entry, row_start};
use count_entry::entry::fill_entry;
use count_entry::frame::Frame;

// A pass over the table: what its cells hold, and how it fills those of an entry in a row.
pub trait Pass {
    ghost held: { Type 0 };

    ghost content: { ℕ → Content held };

    ghost makes: { List (List ℕ) → Makes held };

    // the largest length that it is made for
    ghost most: { ℕ };

    // Fills the cells of the cursor's entry in its row.
    fn fill_entry(
        table: &mut [u64],
        sheet: &[u8],
        places: &[usize],
        f: Frame,
        c: Cursor,
        b: &[usize],
    )
        requires { CellGiven sheet.now places.now f c × (f.last ≤ most) × Pascal b.now }
        ensures { EntryPassed content makes sheet.now places.now f c table.old table.new };

    ghost sound: { (n : ℕ) → Sound (content n) };
}

// Counting: a cell holds one number, its value.
#[derive(Clone, Copy)]
pub struct CountPass;

impl Pass for CountPass {
    ghost held = { ℕ };

    ghost content = { λ n. single };

    ghost makes = { count_makes };

    ghost most = { LENGTH };

    ghost sound = { λ n. single_sound };

    fn fill_entry(
        table: &mut [u64],
        sheet: &[u8],
        places: &[usize],
        f: Frame,
        c: Cursor,
        b: &[usize],
    ) {
        fill_entry(table, sheet, places, f, c, b);
    }
}

// Fills the row of length j: the cursor goes through it, entry by entry.
pub fn fill_row<P: Pass>(
    table: &mut [u64],
    sheet: &[u8],
    places: &[usize],
    f: Frame,
    j: usize,
    b: &[usize],
)
    requires { Framed sheet.now places.now f × (f.last ≤ P.most) × (j ≤ f.last) × Pascal b.now }
    ensures { RowPassed P.content P.makes sheet.now places.now f j table.old table.new }
{
    let entries = f.entries;
    let mut c = row_start(sheet, entries, j);
    while c.row == j {
        P::fill_entry(table, sheet, places, f, c, b);
        let next = next_entry(sheet, entries, c);
        c = next;
    }
}

// Fills the rows up to length j, in the layout of the frame.
pub fn fill_rows<P: Pass>(
    table: &mut [u64],
    sheet: &[u8],
    places: &[usize],
    f: Frame,
    j: usize,
    b: &[usize],
)
    requires { Framed sheet.now places.now f × (f.last ≤ P.most) × (j ≤ f.last) × Pascal b.now }
    ensures { RowsPassed P.content P.makes sheet.now places.now f j table.old table.new }
{
    for i in 0..j + 1 {
        fill_row::<P>(table, sheet, places, f, i, b);
    }
}
