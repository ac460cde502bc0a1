// The parts of a line: a verdict, a witness, and what is wrong with it.
use test_support::print;
use test_witness::check::Wrong;
use test_witness::rows::{ROW, Row};
use word::refusal::{Refusal, Refused};

// Prints a verdict.
pub fn answer(verdict: Result<usize, Refused>) {
    match verdict {
        Ok(cells) => {
            print::text(b"accepted");
            print::next_number(cells as u64);
        }
        Err(refused) => print::refused(u8::from(refused.refusal), refused.index),
    }
}

// The index of the entry that loses permutations, if a verdict comes with a witness: refusal 11.
pub fn losing(verdict: Result<usize, Refused>) -> Option<usize> {
    match verdict {
        Err(refused) if refused.refusal == Refusal::Irreversible => Some(refused.index),
        _ => None,
    }
}

// Prints the permutation and the positions of a page, each with commas between its numbers.
pub fn witness(page: &[u8]) {
    numbers(&Row::at(page, 0));
    numbers(&Row::at(page, ROW));
}

// Prints the numbers of a row, if it has any.
fn numbers(row: &Row) {
    if 0 < row.size() {
        print::text(b" ");
    }
    print::list(row.numbers());
}

// Prints what is wrong with a witness, and nothing if all is right.
pub fn fault(finding: Result<(), Wrong>) {
    print::text(match finding {
        Ok(()) => b"",
        Err(Wrong::Form) => b" wrong: form",
        Err(Wrong::Prefix) => b" wrong: prefix",
        Err(Wrong::Spacing) => b" wrong: spacing",
        Err(Wrong::Deletion) => b" wrong: deletion",
        Err(Wrong::Copy) => b" wrong: copy",
        Err(Wrong::Least) => b" wrong: least",
    });
}
