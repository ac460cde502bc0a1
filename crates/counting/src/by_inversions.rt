// Counting by inversions: the scheme is judged, then n, then the table, then the results.
ghost use Rattle.std.specs.Prelude.{◌≡◌};
ghost use Rattle.text_page.specs.Page.{overlay};
ghost use Rattle.word.specs.Inversions.{figures};
ghost use Rattle.spacing.specs.Pascal.{Pascal};
ghost use Rattle.forms.specs.SchemeMemory.{patterns_in, scheme_in};
ghost use Rattle.count_rows.specs.Run.{cleared};
ghost use Rattle.count_figure_answer.specs.FigureCounting.{figure_need, CountsByInversions};
ghost use Rattle.count_figure_answer.specs.FigureMeasuring.{FiguresGiven};

use crate::values::write_plan;
use count_answer::measure::Measure;
use count_entry::frame::need;
use count_figure_answer::measure::measured;
use count_figure_rows::root::write_root;
use count_figure_rows::rows::fill_rows;
use count_figures::sizes::figure_count;
use count_plan::sheet::SHEET;
use count_rows::run::clear;
use forms::memory::{Patterns, Scheme};
use judge::judging::judge_without_page;
use spacing::binomials::binomials;
use word::refusal::Refused;

// How many permutations of 1 to n avoid the patterns and have 0, 1, .., n(n - 1)/2 inversions, over
// the front of the results, by a scheme that is judged first. Nothing is asked of the caller.
pub fn count_by_inversions(
    patterns: Patterns,
    scheme: Scheme,
    n: usize,
    table: &mut [u64],
    results: &mut [u64],
) -> Result<usize, Refused>
    ensures { CountsByInversions (patterns_in patterns) (scheme_in scheme) n table.old table.new
        results.old results.new result }
{
    judge_without_page(patterns, scheme)?;
    let b = binomials();
    let m = measured(scheme, n, table.len(), results.len(), &b)?;
    write_figures(patterns, scheme, m, &b, table, results);
    Ok(figure_count(n))
}

// The figures of an accepted scheme for the last length, in a table that is measured.
fn write_figures(
    patterns: Patterns,
    scheme: Scheme,
    m: Measure,
    b: &[usize],
    table: &mut [u64],
    results: &mut [u64],
)
    requires { FiguresGiven patterns scheme m table.old results.old × Pascal b.now }
    ensures table { table.new ≡ cleared (figure_need m.frame.last (scheme_in scheme)) table.old }
    ensures results { results.new ≡ overlay 0 (figures (patterns_in patterns) m.frame.last) results.old }
{
    let mut sheet = [0u8; SHEET];
    let root = write_plan(&mut sheet, patterns, scheme);
    let places = m.places;
    let frame = m.frame;
    fill_rows(table, &sheet, &places, frame, b);
    write_root(results, table, &places, frame, root);
    clear(table, figure_count(frame.last) * need(frame));
}
