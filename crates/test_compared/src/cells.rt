// The number of compared cells of a scheme for some m, by going through the spacings of each entry.
use crate::spacings::{first, next};
use std::iter::successors;
use test_witness::lost::is_covered;
use test_witness::texts::{deleted, entry, opens_entry, prefix};

// no entry has more spacings: they have at most seven numbers, each below 8
const ENOUGH: usize = 2097152;

// The compared cells of all entries of a scheme.
pub fn compared(scheme: &[u8], m: usize) -> u64 {
    let entries = scheme.split(opens_entry).skip(1).map(entry);
    entries.fold(0, |cells: u64, e| cells.wrapping_add(of_entry(e, m)))
}

// The compared cells of an entry: none for one that expands, else the spacings that are at least no
// gap vector of the entry.
fn of_entry(entry: &[u8], m: usize) -> u64 {
    if deleted(entry).size() == 0 {
        return 0;
    }
    let parts = prefix(entry).size() + 1;
    let spacings = successors(first(parts, m), |g| next(g, m)).take(ENOUGH);
    spacings.filter(|g| !is_covered(entry, g)).count() as u64
}
