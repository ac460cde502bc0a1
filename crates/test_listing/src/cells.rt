// A page of cells: what each holds before a call, and whether it holds afterwards what it is to
// hold.

// what each cell holds before a call
pub const OLD: u64 = 9876543210123456789;

// Whether so many of the first cells hold 0 and all others what they held before.
pub fn holds(page: &[u64], zeros: usize) -> bool {
    page.iter()
        .enumerate()
        .all(|(i, cell)| *cell == content(i, zeros))
}

// What the cell with the index i holds if so many of the first cells hold 0.
pub fn content(i: usize, zeros: usize) -> u64 {
    if i < zeros { 0 } else { OLD }
}
