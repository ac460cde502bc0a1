// Reading the value at a listed prefix and a spacing, in a row that the table keeps.
ghost use Rattle.std.specs.Prelude.{◌≡◌, [], ◌∷◌, ◌≤◌, take};
ghost use Rattle.word.specs.Ceilings.{LENGTH};
ghost use Rattle.spacing.specs.Pascal.{Pascal};
ghost use Rattle.count_rows.specs.Rows.{ReadGiven, ReadsCell};

use count_entry::frame::{Frame, block_of};
use count_plan::places::place_at;
use count_plan::reading::field;
use count_step::cells::read;
use spacing::walk::rank_after;
use word::limits::COMPONENTS;

// A cell: its row, its entry and its spacing.
#[derive(Clone, Copy)]
pub struct CellAt {
    pub row: usize,
    pub entry: usize,
    pub spacing: [u8; COMPONENTS],
}

// The cell of ε in the row of length j: its spacing is (j).
pub fn root_cell(root: usize, j: usize) -> CellAt
    requires { j ≤ LENGTH }
    ensures { (result.row ≡ j) × (result.entry ≡ root) × (take 1 result.spacing ≡ j ∷ []) }
{
    let mut g = [0u8; COMPONENTS];
    g[0] = j as u8;
    CellAt {
        row: j,
        entry: root,
        spacing: g,
    }
}

// What the table holds in a cell.
pub fn value_in(
    table: &[u64],
    sheet: &[u8],
    places: &[usize],
    f: Frame,
    c: CellAt,
    b: &[usize],
) -> u64
    requires { ReadGiven sheet.now places.now f c × Pascal b.now }
    ensures { ReadsCell sheet.now places.now f c table.now result }
{
    let k = field(sheet, c.entry, 0);
    let g = c.spacing;
    let rank = rank_after(g, k, 0, b);
    let at = block_of(f, c.row, 0) + place_at(places, c.entry);
    read(table, at + rank)
}
