// What n, the table and the results are refused for, or the layout of the table: worked out once a
// call.
ghost use Rattle.spacing.specs.Pascal.{Pascal};
ghost use Rattle.forms.specs.SchemeMemory.{scheme_in};
ghost use Rattle.scheme.specs.Proper.{Proper};
ghost use Rattle.count_figure_answer.specs.FigureMeasuring.{FiguresMeasured};

use count_answer::measure::{Measure, layout_of};
use count_entry::frame::need;
use count_figures::sizes::figure_count;
use forms::memory::Scheme;
use word::limits::REFINED;
use word::refusal::{Refusal, Refused};

// n above REFINED is refused, then fewer cells than are needed, then fewer results than figures.
pub fn measured(
    scheme: Scheme,
    n: usize,
    cells: usize,
    results: usize,
    b: &[usize],
) -> Result<Measure, Refused>
    requires { Proper (scheme_in scheme) × Pascal b.now }
    ensures { FiguresMeasured scheme n cells results result }
{
    if REFINED < n {
        return Err(Refusal::Oversize.at(0));
    }
    let layout = layout_of(scheme, n, b);
    let figures = figure_count(n);
    if cells < figures * need(layout.frame) {
        return Err(Refusal::ShortTable.at(0));
    }
    if results < figures {
        return Err(Refusal::ShortPage.at(0));
    }
    Ok(layout)
}
