// The lines of standard input, each a call of `contains`: a label, a pattern and a permutation,
// with a space between them, spelt as in test_support::spelt. There are the ceilings, ε, lists that
// are no permutation, two arguments at fault, and the examples of document 01.
use containment::contains;
use test_support::lines::{input, lines_of};
use test_support::parts::{before, behind, prefix};
use test_support::print;
use test_support::spelt::entries;
use word::limits::DIGITS;
use word::refusal::Refused;

// A line for each line of the input.
pub fn lines() {
    let mut buffer = io::buffer();
    let n = input(&mut buffer);
    for case in lines_of(prefix(&buffer, n)) {
        one(case);
    }
}

// The line of one case: the label and the answer.
fn one(case: &[u8]) {
    let lists = behind(case, b' ');
    let pattern = before(lists, b' ');
    let permutation = behind(lists, b' ');
    let p = entries(pattern);
    let w = entries(permutation);
    print::text(before(case, b' '));
    answer(contains(prefix(&p, pattern.len()), prefix(&w, permutation.len())));
    print::end();
}

// Prints what `contains` answers, and with a yes the positions of the copy.
fn answer(found: Result<Option<[usize; DIGITS]>, Refused>) {
    match found {
        Ok(Some(at)) => {
            print::text(b" yes");
            positions(&at);
        }
        Ok(None) => print::text(b" no"),
        Err(refused) => {
            print::text(b" ");
            print::refused(u8::from(refused.refusal), refused.index);
        }
    }
}

// Prints the positions up to the first 0 with commas between them.
fn positions(at: &[usize; DIGITS]) {
    print::text(b" ");
    for (i, x) in at.iter().take_while(|x| **x != 0).enumerate() {
        print::item(i, *x as u64);
    }
}
