// A list as numbers in a row, by which what two readers read is compared. A set: for each pattern
// its digits and a stop. A scheme: for each entry its digits and a stop; for each gap vector its
// components and a stop; a stop; then the positions deleted, none for an entry that expands, and a
// stop.

// no digit, no component and no position: these are at most 999
pub const STOP: u64 = 1000;
// the most bytes of a text, which gives at most one number a byte
pub const ROOM: usize = 160;

// The first `count` numbers of an array; those behind them are 0.
#[derive(Clone, Copy, PartialEq, Eq)]
pub struct Flat {
    numbers: [u64; ROOM],
    count: usize,
}

impl Flat {
    // No numbers.
    pub fn new() -> Flat {
        Flat {
            numbers: [0; ROOM],
            count: 0,
        }
    }

    // One number more, where there is room.
    pub fn push(&mut self, x: u64) {
        if let Some(place) = self.numbers.get_mut(self.count) {
            *place = x;
            self.count = self.count.saturating_add(1);
        }
    }

    // Each byte and then a stop.
    pub fn push_bytes(&mut self, bytes: &[u8]) {
        for x in bytes {
            self.push(u64::from(*x));
        }
        self.push(STOP);
    }
}
