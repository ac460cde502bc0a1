// The figures of ε in the last row.
ghost use Rattle.std.specs.Prelude.{◌≡◌};
ghost use Rattle.text_page.specs.Page.{overlay};
ghost use Rattle.count_figure_rows.specs.FigureRows.{RootRead, root_figures};

use count_entry::frame::{Frame, block_of};
use count_figures::adding::put_figures;
use count_figures::sizes::figure_count;
use count_plan::places::place_at;

// Writes them over the front of the results; the table has room for the cell.
pub fn write_root(results: &mut [u64], table: &[u64], places: &[usize], f: Frame, root: usize)
    requires { RootRead places.now f root table.now }
    ensures { results.new ≡
        overlay 0 (root_figures places.now f root table.now) results.old }
{
    let n = figure_count(f.last);
    let cell = block_of(f, f.last, 0) + place_at(places, root);
    let at = n * cell;
    put_figures(results, 0, &table[at..], n);
}
