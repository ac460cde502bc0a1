// The plain evaluation: a cell asks for its children's sum, and the sum asks for cells.
ghost use Rattle.std.specs.Prelude.{◌≤◌, ◌≡◌};
ghost use Rattle.count_plan.specs.SheetRows.{field_of};
ghost use Rattle.count_plain.specs.Reading.{CellAt, Evaluates, Sums};

use crate::reading::is_free_at;
use crate::spacings::{held, merged_spacing, split_spacing};
use count_plan::reading::{field, gone_of};
use count_plan::sheet::FIELDS;
use count_step::sums::capped_sum;
use word::limits::COMPONENTS;

// The value at the entry with index e and the spacing g, whose total is t.
#[cycle(cell_next_sum)]
pub fn cell(sheet: &[u8], e: usize, g: [u8; COMPONENTS], t: usize) -> u64
    requires { CellAt sheet.now e g t }
    ensures { Evaluates sheet.now e g t result }
{
    let k = field(sheet, e, 0);
    if !is_free_at(sheet, e, k, g) {
        return 0;
    }
    let n = field(sheet, e, 1);
    if n != 0 {
        let target = field(sheet, e, FIELDS);
        let gone = gone_of(sheet, e);
        let h = merged_spacing(g, k, gone);
        return cell(sheet, target, h, t);
    }
    if t == 0 {
        return field(sheet, e, 2) as u64;
    }
    next_sum(sheet, e, k, g, t)
}

// The sum over every next entry.
#[cycle(cell_next_sum)]
fn next_sum(sheet: &[u8], e: usize, k: usize, g: [u8; COMPONENTS], t: usize) -> u64
    requires { CellAt sheet.now e g t × (k ≡ field_of sheet.now e 0) × (field_of sheet.now e 1 ≡ 0) × (1 ≤ t) }
    ensures { Sums sheet.now e g t result }
{
    let mut sum: u64 = 0;
    for q in 1..t + 1 {
        let at = held(g, k, q);
        let h = split_spacing(g, k, at.index, at.left);
        let child = field(sheet, e, FIELDS + at.index);
        let x = cell(sheet, child, h, t - 1);
        sum = capped_sum(sum, x);
    }
    sum
}
