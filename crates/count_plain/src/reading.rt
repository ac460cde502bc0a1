// Whether a gap vector of an entry covers a spacing, by the sheet.
ghost use Rattle.std.specs.Prelude.{◌≡◌, ◌+◌, ◌≤◌, ◌<◌, length, take};
ghost use Rattle.word.specs.Ceilings.{ENTRIES, PREFIX, GAPS};
ghost use Rattle.cell.specs.Cell.{free};
ghost use Rattle.count_plan.specs.SheetSizes.{SHEET};
ghost use Rattle.count_plan.specs.SheetRows.{field_of, gaps_at};

use count_plan::reading::{field, gaps_of};
use spacing::is_free;
use word::limits::COMPONENTS;

// Whether a spacing is at least none of the gap vectors of the entry with index e.
pub fn is_free_at(sheet: &[u8], e: usize, k: usize, g: [u8; COMPONENTS]) -> bool
    requires { (e < ENTRIES) × (k ≤ PREFIX) × (length sheet.now ≡ SHEET) × (field_of sheet.now e 3 ≤ GAPS) }
    ensures { result ≡ free (gaps_at sheet.now e k) (take (k + 1) g) }
{
    let n = field(sheet, e, 3);
    let gaps = gaps_of(sheet, e);
    is_free(gaps, n, k, g)
}
