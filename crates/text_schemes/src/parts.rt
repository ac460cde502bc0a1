// An entry of a text in memory, and what comes after it.
use forms::memory::Entry;

// An entry and the mark behind it: whether a further entry is due, and the number of bytes up to
// the end of the mark.
#[derive(Clone, Copy)]
pub struct ItemRead {
    pub more: bool,
    pub entry: Entry,
    pub bytes: usize,
}
