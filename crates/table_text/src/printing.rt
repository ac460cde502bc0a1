// Counts as an OEIS b-file, or a refusal, written over a lent page. Bytes behind the end of the
// page are dropped.
ghost use Rattle.std.specs.Prelude.{[], take, ◌+◌, ◌≤◌};
ghost use Rattle.word.specs.Ceilings.{LENGTH};
ghost use Rattle.word.specs.Finding.{fault};
ghost use Rattle.word.specs.Told.{told_by};
ghost use Rattle.text_page.specs.Page.{Writes};
ghost use Rattle.table_text.specs.Printed.{LINE, PAGE, count_line, bfile_text, refusal_line};

use text_page::bytes::{put, put_bytes, put_decimal};
use word::limits::COUNTS;
use word::refusal::Refusal;

// A page of so many bytes is always enough: 21 lines of up to 24 bytes each (specs/Printed.antt).
pub const PAGE: usize = 512;

// "the one line `refused`, number and index" (01)
pub const REFUSED: [u8; 7] = *b"refused";

// Writes a line of a b-file.
fn put_line(page: &mut [u8], at: usize, n: usize, count: u64) -> usize
    requires { (n ≤ LENGTH) × (at ≤ PAGE) }
    ensures { Writes (count_line n count) at page.old page.new result × (result ≤ at + LINE) }
{
    let space = put_decimal(page, at, n as u64);
    let second = put(page, space, b' ');
    let end = put_decimal(page, second, count);
    put(page, end, b'\n')
}

// Writes the b-file of the counts for 0 to n.
pub fn put_counts(page: &mut [u8], counts: [u64; COUNTS], n: usize) -> usize
    requires { n ≤ LENGTH }
    ensures { Writes (bfile_text (take (n + 1) counts)) 0 page.old page.new result × (result ≤ PAGE) }
{
    let mut next: usize = 0;
    for i in 0..n + 1 {
        next = put_line(page, next, i, counts[i]);
    }
    next
}

// Writes the line of a refusal.
pub fn put_refusal(page: &mut [u8], refusal: Refusal, index: usize) -> usize
    ensures { Writes (refusal_line (told_by (fault refusal index) [])) 0 page.old page.new result × (result ≤ PAGE) }
{
    let space = put_bytes(page, 0, &REFUSED);
    let second = put(page, space, b' ');
    let next_space = put_decimal(page, second, u64::from(u8::from(refusal)));
    let third = put(page, next_space, b' ');
    let end = put_decimal(page, third, index as u64);
    put(page, end, b'\n')
}
