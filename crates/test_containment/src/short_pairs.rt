// Containment against the direct search on every short pair.
use containment::contains;
use test_listing::direct::{LENGTH, first_positions};
use test_listing::permutations::{count, permutation};
use test_support::counts::count_if;
use test_support::parts::prefix;
use test_support::print;
use word::limits::DIGITS;
use word::refusal::Refused;

// the length of the longest patterns that are compared on every permutation
const PATTERN: usize = 4;
// the length of the longest permutations that they are compared on
const WORD: usize = 7;

// What was found on the pairs of a pattern and a permutation that were compared.
#[derive(Clone, Copy, Default)]
struct Tally {
    contained: u64,
    pairs: u64,
    disagreements: u64,
}

// For each length of patterns and each length of permutations a line: the two lengths, how many
// pairs `contains` says yes of, how many pairs there are, and on how many the direct search says
// something else or has another first copy.
pub fn lines() {
    for k in 1..=PATTERN {
        for n in 0..=WORD {
            line_of(k, n);
        }
    }
}

// The line of the patterns of length k and the permutations of length n.
fn line_of(k: usize, n: usize) {
    let t = over_pairs(k, n);
    print::number(k as u64);
    print::next_number(n as u64);
    print::next_number(t.contained);
    print::next_number(t.pairs);
    print::next_number(t.disagreements);
    print::end();
}

// The tally of every pattern of length k with every permutation of length n.
fn over_pairs(k: usize, n: usize) -> Tally {
    let mut t = Tally::default();
    for i in 0..count(k) {
        let pattern = permutation(k, i);
        for j in 0..count(n) {
            t.add(prefix(&pattern, k), prefix(&permutation(n, j), n));
        }
    }
    t
}

impl Tally {
    // Counts a pattern and a permutation.
    fn add(&mut self, p: &[u8], w: &[u8]) {
        let answer = contains(p, w);
        count_if(&mut self.contained, matches!(&answer, Ok(Some(_))));
        count_if(&mut self.pairs, true);
        count_if(
            &mut self.disagreements,
            !agree(answer, first_positions(p, w)),
        );
    }
}

// Whether `contains` says what the direct search says, and gives its positions. A refusal is a
// disagreement.
fn agree(answer: Result<Option<[usize; DIGITS]>, Refused>, direct: Option<[u8; LENGTH]>) -> bool {
    match (answer, direct) {
        (Ok(Some(at)), Some(positions)) => are_same(&at, &positions),
        (Ok(None), None) => true,
        _ => false,
    }
}

// Whether they are the same positions, zeros included.
fn are_same(at: &[usize; DIGITS], direct: &[u8; LENGTH]) -> bool {
    at.iter().zip(direct).all(|(x, y)| *x == usize::from(*y))
}
