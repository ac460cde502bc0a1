// Entries and numbers that a line of the input spells.

// one entry more than a permutation may have
pub const BEYOND: usize = 21;

// The entries that a word spells, in front, and zeros behind them. A digit is an entry, and so is a
// letter, from A on for 10 and above; the byte before the digits stands for 255.
pub fn entries(word: &[u8]) -> [u8; BEYOND] {
    let mut all = [0u8; BEYOND];
    for (to, x) in all.iter_mut().zip(word) {
        *to = entry(*x);
    }
    all
}

// The entry that a byte spells.
fn entry(x: u8) -> u8 {
    if x <= b'9' {
        x.wrapping_sub(b'0')
    } else {
        x.wrapping_sub(55)
    }
}

// The number below 2 to the 64 that decimal digits spell.
pub fn decimal(digits: &[u8]) -> u64 {
    let mut n: u64 = 0;
    for x in digits {
        n = n.wrapping_mul(10).wrapping_add(u64::from(entry(*x)));
    }
    n
}
