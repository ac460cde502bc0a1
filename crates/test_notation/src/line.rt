// The line of one text: the label, and either the refusal or the number of items read and what
// came of writing them to three pages: one with room, one of just the bytes needed, and one of a
// byte fewer. Of the first two it says the number of bytes, whether they are the text without its
// spaces, and whether the page behind them is still 7; of the last the refusal, and whether all of
// that page is still 7.
use crate::page::{Filled, PAGE, begins_as, fill, is_sevens};
use crate::texts::Kind;
use notation::patterns::{read_patterns, write_patterns};
use notation::schemes::{read_scheme, write_scheme};
use test_support::print;
use word::refusal::Refused;

// The line of a text of either kind.
pub fn of(kind: Kind, label: &[u8], text: &[u8]) {
    print::text(label);
    match kind {
        Kind::Patterns => match read_patterns(text) {
            Ok(p) => back(p.count, text, |page| write_patterns(p, page)),
            Err(refused) => print_refused(refused),
        },
        Kind::Scheme => match read_scheme(text) {
            Ok(s) => back(s.count, text, |page| write_scheme(s, page)),
            Err(refused) => print_refused(refused),
        },
    }
    print::end();
}

// So many items that were read are written to three pages.
fn back<F: Fn(&mut [u8]) -> Result<usize, Refused>>(items: usize, text: &[u8], write: F)
    requires { F.IsAlwaysCallable write }
{
    print::text(b" read");
    print::next_number(items as u64);
    let n = whole(&fill(PAGE, &write), text);
    whole(&fill(n, &write), text);
    short(&fill(n.saturating_sub(1), &write));
}

// Prints what stands in a page that was long enough; the number of bytes written, and 0 after a
// refusal.
fn whole(f: &Filled, text: &[u8]) -> usize {
    let n = f.answer.unwrap_or(0);
    written(f.answer);
    print::either(begins_as(&f.page, n, text), b" same", b" different");
    print::either(is_sevens(&f.page, n), b" rest-kept", b" rest-changed");
    n
}

// Prints the answer on a page that is too short, and whether it was left as it was.
fn short(f: &Filled) {
    written(f.answer);
    print::either(is_sevens(&f.page, 0), b" page-kept", b" page-changed");
}

// Prints the answer of writing.
fn written(answer: Result<usize, Refused>) {
    match answer {
        Ok(n) => {
            print::text(b" written");
            print::next_number(n as u64);
        }
        Err(refused) => print_refused(refused),
    }
}

// Prints a refusal.
fn print_refused(refused: Refused) {
    print::text(b" ");
    print::refused(u8::from(refused.refusal), refused.index);
}
