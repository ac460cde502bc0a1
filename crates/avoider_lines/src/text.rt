// The line of an avoider, written over a lent page. Bytes behind the end of the page are dropped.
ghost use Rattle.std.specs.Prelude.{◌∷◌, ◌+◌, ◌≤◌, take};
ghost use Rattle.text_page.specs.Page.{Writes};
ghost use Rattle.text_page.specs.Decimal.{NUMERAL, decimal};
ghost use Rattle.avoider_lines.specs.LineText.{LINE, line_of};

use text_page::bytes::{put, put_decimal};
use word::limits::WORD;

// A page of so many bytes is always enough (specs/LineText.antt).
pub const LINE: usize = WORD * 21 + 1;

// Writes the line of the first n entries of a word at the start of the page; the number of bytes.
pub fn put_line(page: &mut [u8], word: [u8; WORD], n: usize) -> usize
    ensures { Writes (line_of (take n word)) 0 page.old page.new result × (result ≤ LINE) }
{
    let count = n.min(WORD);
    if count == 0 {
        return put(page, 0, b'\n');
    }
    let mut next = put_decimal(page, 0, u64::from(word[0]));
    for i in 1..count {
        next = put_entry(page, next, word[i]);
    }
    put(page, next, b'\n')
}

// Writes a space and an entry.
fn put_entry(page: &mut [u8], at: usize, entry: u8) -> usize
    requires { at ≤ LINE }
    ensures { Writes (0x20 ∷ decimal entry) at page.old page.new result × (result ≤ at + (NUMERAL + 1)) }
{
    let next = put(page, at, b' ');
    put_decimal(page, next, u64::from(entry))
}
