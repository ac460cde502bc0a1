// Reading and writing a scheme.
ghost use Rattle.std.specs.Prelude.{◌≡◌};
ghost use Rattle.forms.specs.SchemeMemory.{scheme_in};
ghost use Rattle.notation.specs.SchemeAnswers.{scheme_answer, ReadsScheme, WritesScheme};

use forms::memory::Scheme;
use text_grammar::cursor::Cursor;
use text_schemes::scheme_reader::{ends_at, item_at, no_entry, opening_at};
use text_writer::writing::put_scheme;
use wellformed::scheme_tests::scheme_fault;
use word::limits::{ENTRIES, SCHEME_TEXT};
use word::refusal::{Refusal, Refused};

// Reads a scheme. A text of more than 32,768 bytes is refused with 2, one that spells no scheme
// with 1; then the tests 2 to 9. The entries are read up to one that is the last or misspelt; all
// are counted, the first 128 kept.
pub fn read_scheme(text: &[u8]) -> Result<Scheme, Refused>
    ensures { (result ≡ scheme_answer text.now) × ReadsScheme text.now result }
{
    if SCHEME_TEXT < text.len() {
        return Err(Refusal::Oversize.at(0));
    }
    let misspelt = Refusal::Misspelt.at(0);
    let Some((last, mark)) = opening_at(text, Cursor { at: 0 }) else {
        return Err(misspelt);
    };
    let none = no_entry();
    let mut scheme = Scheme {
        entries: [none; ENTRIES],
        count: 0,
    };
    let mut at = mark.at;
    let mut more = !last;
    while more {
        let Some(item) = item_at(&text[at..]) else {
            return Err(misspelt);
        };
        let entry = item.entry;
        let count = scheme.count;
        at += item.bytes;
        more = item.more;
        scheme.count = count + 1;
        if count < ENTRIES {
            scheme.entries[count] = entry;
        }
    }
    if !ends_at(text, Cursor { at }) {
        return Err(misspelt);
    }
    scheme_fault(scheme)?;
    Ok(scheme)
}

// Writes a scheme at the start of the page: the tests 2 to 9, then 13; the number of bytes. A
// refused call leaves the page as it is.
pub fn write_scheme(s: Scheme, page: &mut [u8]) -> Result<usize, Refused>
    ensures { WritesScheme (scheme_in s) page.old page.new result }
{
    scheme_fault(s)?;
    let length = put_scheme(&mut page[..0], 0, s);
    if page.len() < length {
        return Err(Refusal::ShortPage.at(0));
    }
    put_scheme(page, 0, s);
    Ok(length)
}
