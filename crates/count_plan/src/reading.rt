// Reading the fields of the cards of a sheet.
ghost use Rattle.std.specs.Prelude.{◌≡◌, ◌<◌, length};
ghost use Rattle.word.specs.Ceilings.{ENTRIES};
ghost use Rattle.count_plan.specs.SheetSizes.{CARD, SHEET};
ghost use Rattle.count_plan.specs.SheetRows.{field_of, flags_at, parts_at};

use crate::sheet::{CARD, FLAGS, HEAD};
use word::limits::{COMPONENTS, PARTS};

// Byte f of the entry with index e.
pub fn field(sheet: &[u8], e: usize, f: usize) -> usize
    requires { (e < ENTRIES) × (f < CARD) × (length sheet.now ≡ SHEET) }
    ensures { result ≡ field_of sheet.now e f }
{
    usize::from(sheet[CARD * e + f])
}

// The flags of the values that the entry with index e deletes.
pub fn gone_of(sheet: &[u8], e: usize) -> [u8; COMPONENTS]
    requires { (e < ENTRIES) × (length sheet.now ≡ SHEET) }
    ensures { result ≡ flags_at sheet.now e }
{
    let at = CARD * e + FLAGS;
    let mut gone = [0u8; COMPONENTS];
    gone.copy_from_slice(&sheet[at..at + COMPONENTS]);
    gone
}

// The components of the gap vectors of the entry with index e.
pub fn gaps_of(sheet: &[u8], e: usize) -> &[u8]
    requires { (e < ENTRIES) × (length sheet.now ≡ SHEET) }
    ensures { result.now ≡ parts_at sheet.now e }
{
    let at = CARD * e + HEAD;
    &sheet[at..at + PARTS]
}

// A length as a number of 64 bits, as values have them.
pub fn long(x: usize) -> u64
    ensures { result ≡ x }
{
    x as u64
}
