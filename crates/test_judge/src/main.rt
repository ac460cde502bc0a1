// A test program: judges pairs of lines, a set and a scheme, from standard input, and prints a line
// a pair, with refusal 11 the witness too. Its input holds the schemes of the published papers; the
// lines that it is to print are theirs. A further word in a line says that a page is not as it has
// to be, or what is wrong with a witness; the last two lines count what was compared.
#![tactic(auto)]

mod line;
mod pages;

use judge_texts::judge_texts;
use line::losing;
use pages::{LONG, are_right};
use test_support::counts::count_if;
use test_support::lines::{input, pairs_of};
use test_support::parts::prefix;
use test_support::print;
use test_witness::check::{found, is_compared_with_all};
use word::refusal::Refused;

// What was counted over the pairs.
#[derive(Clone, Copy, Default)]
struct Tally {
    pairs: u64,
    wrong_pages: u64,
    witnesses: u64,
    wrong_witnesses: u64,
    listed: u64,
}

fn main() {
    let mut buffer = io::large_buffer();
    let n = input(&mut buffer);
    let mut t = Tally::default();
    for (set, scheme) in pairs_of(prefix(&buffer, n)) {
        t.pair(set, scheme);
    }
    t.print();
}

impl Tally {
    // Prints the line of a pair, and counts it.
    fn pair(&mut self, set: &[u8], scheme: &[u8]) {
        let mut page = [7u8; LONG];
        let verdict = judge_texts(set, scheme, &mut page);
        line::answer(verdict);
        self.witness(set, scheme, verdict, &page);
        let right = are_right(set, scheme, verdict, &page);
        print::either(right, b"\n", b" page\n");
        count_if(&mut self.pairs, true);
        count_if(&mut self.wrong_pages, !right);
    }

    // Prints and counts the witness on a page, if there is one.
    fn witness(&mut self, set: &[u8], scheme: &[u8], verdict: Result<usize, Refused>, page: &[u8]) {
        let Some(index) = losing(verdict) else {
            return;
        };
        line::witness(page);
        let finding = found(set, scheme, index, page);
        line::fault(finding);
        count_if(&mut self.witnesses, true);
        count_if(&mut self.wrong_witnesses, finding.is_err());
        count_if(&mut self.listed, is_compared_with_all(page));
    }

    // Prints what was counted: of the pairs, how many had a page that was wrong; of the witnesses,
    // how many were wrong, and how many were compared with all permutations before them.
    fn print(&self) {
        print::text(b"pairs");
        print::next_number(self.pairs);
        print::text(b" wrong pages");
        print::next_number(self.wrong_pages);
        print::end();
        print::text(b"witnesses");
        print::next_number(self.witnesses);
        print::text(b" wrong");
        print::next_number(self.wrong_witnesses);
        print::text(b" least by listing");
        print::next_number(self.listed);
        print::end();
    }
}
