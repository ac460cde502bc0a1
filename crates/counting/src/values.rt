// The counts of an accepted scheme, in a table that is measured.
ghost use Rattle.std.specs.Prelude.{◌≡◌, [], length};
ghost use Rattle.spacing.specs.Pascal.{Pascal};
ghost use Rattle.forms.specs.SchemeMemory.{patterns_in, scheme_in};
ghost use Rattle.verdict.specs.Value.{count_of};
ghost use Rattle.verdict.specs.Truth.{WellFormed};
ghost use Rattle.count_plan.specs.Layout.{need_of};
ghost use Rattle.count_plan.specs.SheetSizes.{SHEET};
ghost use Rattle.count_plan.specs.SheetForm.{SheetTo};
ghost use Rattle.count_plan.specs.SheetRows.{Names};
ghost use Rattle.count_rows.specs.Run.{cleared, Counts};
ghost use Rattle.count_answer.specs.Measuring.{TableGiven};

use count_answer::measure::Measure;
use count_plan::sheet::{SHEET, fill_sheet};
use count_rows::run::{all_values, last_value};
use forms::memory::{Patterns, Scheme};
use word::limits::COUNTS;

// Writes the sheet of the scheme for the patterns; the index of the entry for ε.
pub fn write_plan(sheet: &mut [u8], patterns: Patterns, scheme: Scheme) -> usize
    requires { WellFormed (patterns_in patterns) (scheme_in scheme) × (length sheet.old ≡ SHEET) }
    ensures sheet { SheetTo (patterns_in patterns) scheme scheme.count sheet.new }
    ensures root { Names scheme [] result }
{
    fill_sheet(sheet, patterns.as_slice(), scheme)
}

// The count for the last length.
pub fn last_count(
    patterns: Patterns,
    scheme: Scheme,
    m: Measure,
    b: &[usize],
    table: &mut [u64],
) -> u64
    requires { TableGiven patterns scheme m table.old × Pascal b.now }
    ensures count { result ≡ count_of (patterns_in patterns) (scheme_in scheme) m.frame.last }
    ensures table { table.new ≡ cleared (need_of m.frame.last (scheme_in scheme)) table.old }
{
    let mut sheet = [0u8; SHEET];
    let root = write_plan(&mut sheet, patterns, scheme);
    let places = m.places;
    let frame = m.frame;
    last_value(table, &sheet, &places, frame, root, b)
}

// The counts for all lengths up to the last.
pub fn all_counts(
    patterns: Patterns,
    scheme: Scheme,
    m: Measure,
    b: &[usize],
    table: &mut [u64],
) -> [u64; COUNTS]
    requires { TableGiven patterns scheme m table.old × Pascal b.now }
    ensures counts { Counts (patterns_in patterns) (scheme_in scheme) m.frame.last result }
    ensures table { table.new ≡ cleared (need_of m.frame.last (scheme_in scheme)) table.old }
{
    let mut sheet = [0u8; SHEET];
    let root = write_plan(&mut sheet, patterns, scheme);
    let places = m.places;
    let frame = m.frame;
    all_values(table, &sheet, &places, frame, root, b)
}
