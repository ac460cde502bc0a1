// Whether a permutation is lost by the deletion of an entry at a compared spacing, from the words
// of document 01 and of orders 1 and 3: it begins with the prefix, its spacing is compared, it
// contains a pattern, and without the deleted positions it contains none.
use crate::copies::avoids_all;
use crate::rows::Row;
use crate::texts::{deleted, opens_vector, prefix, vector};

// The deletion of an entry: the patterns of the set, its m, and the text of the entry.
#[derive(Clone, Copy)]
pub struct Deletion<'a> {
    pub set: &'a [u8],
    pub m: usize,
    pub entry: &'a [u8],
}

impl<'a> Deletion<'a> {
    // Whether the deletion loses the permutation at a compared spacing.
    pub fn loses(&self, w: &Row) -> bool {
        self.begins(w) && self.compares(w) && !avoids_all(self.set, w) && self.avoids_shorter(w)
    }

    // Whether the first entries of a permutation reduce to the prefix of the entry.
    pub fn begins(&self, w: &Row) -> bool {
        let p = prefix(self.entry);
        w.first(p.size()).reduced() == p
    }

    // Whether the spacing of a permutation that begins with the prefix is at least no listed vector
    // and has a total of at most m - 1. The total is below m then, which no total is for m = 0.
    pub fn compares(&self, w: &Row) -> bool {
        let k = prefix(self.entry).size();
        w.size().wrapping_sub(k) < self.m && !is_covered(self.entry, &spacing(k, w))
    }

    // Whether the permutation without the deleted positions, reduced, contains no pattern.
    pub fn avoids_shorter(&self, w: &Row) -> bool {
        avoids_all(self.set, &w.without(&deleted(self.entry)).reduced())
    }
}

// The spacing of the first k entries, (c1 - 1, c2 - c1 - 1, .., n - ck): what lies between 0, the
// first k entries sorted, and n + 1.
pub fn spacing(k: usize, w: &Row) -> Row {
    let mut sorted = w.first(k).ascending();
    sorted.push((w.size() + 1) as u8);
    let mut g = Row::new();
    let mut below: u8 = 0;
    for x in sorted.numbers() {
        g.push(x.wrapping_sub(below).wrapping_sub(1));
        below = *x;
    }
    g
}

// Whether a spacing is at least some gap vector of the entry. An empty row is none.
pub fn is_covered(entry: &[u8], g: &Row) -> bool {
    let mut vectors = entry.split(opens_vector).skip(1).map(vector);
    vectors.any(|b| 0 < b.size() && g.is_at_least(&b))
}
