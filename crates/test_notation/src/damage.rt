// Tests of reading on damaged texts, against the automaton.
use crate::lists::{of_patterns, of_scheme};
use crate::texts::{CHANGES, Damage, Kind, damaged};
use notation::patterns::read_patterns;
use notation::schemes::read_scheme;
use test_automaton::automaton::{Machine, run};
use test_automaton::flat::{Flat, ROOM};
use test_automaton::rows::State;
use test_support::counts::count_if;
use test_support::print;
use word::refusal::{Refusal, Refused};

// What was found on the damaged texts: how many there are, how many are spelt, how many are read
// with no fault, and on how many the two readers disagree.
#[derive(Clone, Copy, Default)]
struct Tally {
    texts: u64,
    spelt: u64,
    read: u64,
    disagreements: u64,
}

// The line of one text: the tally of every byte damaged in every way. A byte is not changed to
// itself.
pub fn line(kind: Kind, label: &[u8], text: &[u8]) {
    let mut t = Tally::default();
    for (at, x) in text.iter().take(ROOM).enumerate() {
        for damage in [Damage::Dropped, Damage::Doubled, Damage::Cut] {
            t.add(kind, damaged(text, at, damage).as_slice());
        }
        for y in CHANGES.iter().filter(|y| *y != x) {
            t.add(kind, damaged(text, at, Damage::Changed(*y)).as_slice());
        }
    }
    print::text(label);
    print::next_number(t.texts);
    print::next_number(t.spelt);
    print::next_number(t.read);
    print::next_number(t.disagreements);
    print::end();
}

impl Tally {
    // Counts a damaged text.
    fn add(&mut self, kind: Kind, text: &[u8]) {
        match kind {
            Kind::Patterns => {
                let list = read_patterns(text).map(|p| of_patterns(&p));
                self.compare(list, &run(State::Set, text));
            }
            Kind::Scheme => {
                let list = read_scheme(text).map(|s| of_scheme(&s));
                self.compare(list, &run(State::Scheme, text));
            }
        }
    }

    // Counts what the two readers say of one text.
    fn compare(&mut self, answer: Result<Flat, Refused>, m: &Machine) {
        count_if(&mut self.texts, true);
        count_if(&mut self.spelt, is_spelt(answer));
        count_if(&mut self.read, answer.is_ok());
        count_if(&mut self.disagreements, !agree(answer, m));
    }
}

// Whether an answer finds the text spelt.
fn is_spelt(answer: Result<Flat, Refused>) -> bool {
    match answer {
        Ok(_) => true,
        Err(refused) => refused.refusal != Refusal::Misspelt,
    }
}

// Whether both find the text spelt or both do not, and where there is no fault whether the lists
// are the same.
fn agree(answer: Result<Flat, Refused>, m: &Machine) -> bool {
    match answer {
        Ok(list) => m.is_end() && list == m.list,
        Err(_) => m.is_end() == is_spelt(answer),
    }
}
