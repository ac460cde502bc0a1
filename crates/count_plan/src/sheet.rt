// The sheet of a scheme: what counting has to know of each entry, in bytes.
ghost use Rattle.std.specs.Prelude.{◌≡◌, [], ◌+◌, ◌%◌, ◌≤◌, length};
ghost use Rattle.word.specs.Ceilings.{PARTS};
ghost use Rattle.count_plan.specs.SheetSizes.{CARD, SHEET};
ghost use Rattle.count_plan.specs.SheetForm.{Put, head_of, GapsIn, CardIn, SheetTo};
ghost use Rattle.count_plan.specs.SheetRows.{Names};
ghost use Rattle.forms.specs.SchemeMemory.{scheme_in};
ghost use Rattle.scheme.specs.Proper.{Proper};
ghost use Rattle.forms.specs.SetMemory.{held_in};

use crate::cards::{Card, entry_card, index_in};
use forms::memory::{Entry, Pattern, Scheme};
use scheme::links::codes_of;
use word::limits::{ENTRIES, LINKS, PARTS};

// Bytes before the flags of the values: four numbers of an entry.
pub const FLAGS: usize = 4;
// Bytes before the links: those, the flags, and zeros.
pub const FIELDS: usize = 16;
// Bytes before the gap vectors.
pub const HEAD: usize = FIELDS + LINKS;
// Bytes of an entry.
pub const CARD: usize = HEAD + PARTS;
// Bytes of all entries.
pub const SHEET: usize = ENTRIES * CARD;

// Writes a part into the sheet.
fn put(sheet: &mut [u8], at: usize, part: &[u8])
    requires { (at + length part.now ≤ length sheet.old) × (length sheet.old ≤ SHEET) }
    ensures { Put at part.now sheet.old sheet.new }
{
    sheet[at..at + part.len()].copy_from_slice(part);
}

// The last byte of a number.
fn low(x: usize) -> u8
    ensures { result ≡ x % 256 }
{
    (x % 256) as u8
}

// The bytes of an entry before its gap vectors.
fn head_of(card: Card, n: usize) -> [u8; HEAD]
    ensures { result ≡ head_of card n }
{
    let g = card.gone;
    let l = card.links;
    [
        low(card.length),
        low(card.deleted),
        low(card.alone as usize),
        low(n),
        g[0],
        g[1],
        g[2],
        g[3],
        g[4],
        g[5],
        g[6],
        0,
        0,
        0,
        0,
        0,
        low(l[0]),
        low(l[1]),
        low(l[2]),
        low(l[3]),
        low(l[4]),
        low(l[5]),
        low(l[6]),
        low(l[7]),
    ]
}

// Writes the components of all gap vectors of an entry.
fn put_gaps(sheet: &mut [u8], at: usize, e: Entry)
    requires { (at + PARTS ≤ length sheet.old) × (length sheet.old ≤ SHEET) }
    ensures { GapsIn e at sheet.old sheet.new }
{
    let gaps = e.gaps;
    put(sheet, at, &gaps);
}

// Writes the bytes of an entry.
fn put_card(sheet: &mut [u8], at: usize, e: Entry, card: Card)
    requires { (at + CARD ≤ length sheet.old) × (length sheet.old ≤ SHEET) }
    ensures { CardIn e card at sheet.old sheet.new }
{
    let head = head_of(card, e.gap_count);
    put(sheet, at, &head);
    put_gaps(sheet, at + HEAD, e);
}

// Writes the sheet of a scheme; answers the index of the entry for ε.
pub fn fill_sheet(sheet: &mut [u8], patterns: &[Pattern], s: Scheme) -> usize
    requires { Proper (scheme_in s) × (length sheet.old ≡ SHEET) }
    ensures sheet { SheetTo (held_in patterns.now) s s.count sheet.new }
    ensures root { Names s [] result }
{
    let codes = codes_of(s);
    let codes = &codes[..s.count];
    for i in 0..s.count {
        let e = s.entries[i];
        let card = entry_card(patterns, codes, e);
        put_card(sheet, CARD * i, e, card);
    }
    index_in(codes, &[])
}
