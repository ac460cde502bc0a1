// The rows of a table of figures. The number for q inversions behind the prefix, of the cell that
// counting would have at the index i, stands at i times the number of figures of the largest
// length, plus q. A cell has as many figures as its total asks for; nothing reads behind them.
ghost use Rattle.std.specs.Prelude.{ℕ, List, ◌≤◌};
ghost use Rattle.word.specs.Ceilings.{REFINED};
ghost use Rattle.word.specs.Inversions.{figure_count};
ghost use Rattle.spacing.specs.Pascal.{Pascal};
ghost use Rattle.count_entry.specs.Frames.{Framed};
ghost use Rattle.count_figures.specs.Figures.{figures_makes, several};
ghost use Rattle.count_figures.proofs.FigureContentLaws.{several_sound};
ghost use Rattle.count_figure_rows.specs.FigureRows.{RowsFigured};

use crate::entry::fill_entry;
use count_cursor::cursor::Cursor;
use count_entry::frame::Frame;
use count_rows::rows;
use count_rows::rows::Pass;

// Counting by inversions: a cell holds as many numbers as the largest length has figures.
#[derive(Clone, Copy)]
pub struct FigurePass;

impl Pass for FigurePass {
    ghost held = { List ℕ };

    ghost content = { λ n. several (figure_count n) };

    ghost makes = { figures_makes };

    ghost most = { REFINED };

    ghost sound = { λ n. several_sound (figure_count n) };

    fn fill_entry(
        table: &mut [u64],
        sheet: &[u8],
        places: &[usize],
        f: Frame,
        c: Cursor,
        b: &[usize],
    ) {
        fill_entry(table, sheet, places, f, c, b);
    }
}

// Fills the rows up to the largest length.
pub fn fill_rows(table: &mut [u64], sheet: &[u8], places: &[usize], f: Frame, b: &[usize])
    requires { Framed sheet.now places.now f × (f.last ≤ REFINED) × Pascal b.now }
    ensures { RowsFigured sheet.now places.now f table.old table.new }
{
    let last = f.last;
    rows::fill_rows::<FigurePass>(table, sheet, places, f, last, b);
}
