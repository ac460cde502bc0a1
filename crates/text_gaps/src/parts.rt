// The gap vectors of an entry in memory.
use word::limits::{GAPS, PARTS};

// Gap vectors, as an entry keeps them: the true number of them, the first GAPS kept.
#[derive(Clone, Copy)]
pub struct Gaps {
    pub parts: [u8; PARTS],
    pub widths: [u8; GAPS],
    pub count: usize,
}
