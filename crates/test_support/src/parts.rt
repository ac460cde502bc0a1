// Parts of byte lists.

ghost use Rattle.std.specs.Prelude.{◌≡◌, ◌≢◌, ◌≤◌, ◌<◌, ℕ, min, length, slice_index, drop};

// The index of the first byte x from the index `from` on, and the number of bytes where there is
// none.
pub fn find(a: &[u8], from: usize, x: u8) -> usize
    ensures begun { min from (length a.now) ≤ result }
    ensures within { result ≤ length a.now }
    ensures before { (k : ℕ) → from ≤ k → k < result → slice_index a.now k ≢ x }
    ensures found { result < length a.now → slice_index a.now result ≡ x }
{
    for i in from..a.len() {
        if a[i] == x {
            return i;
        }
    }
    a.len()
}

// The first n bytes, or all of them where there are fewer.
pub fn prefix(a: &[u8], n: usize) -> &[u8] {
    a.get(..n).unwrap_or(a)
}

// The bytes from the index n on, and none where there are fewer.
pub fn suffix(a: &[u8], n: usize) -> &[u8]
    ensures { result.now ≡ drop n a.now }
{
    a.get(n..).unwrap_or(&[])
}

// The byte at the index i, and 0 past the last.
pub fn byte_at(a: &[u8], i: usize) -> u8 {
    a.get(i).copied().unwrap_or(0)
}

// What stands before the first byte x, or all where there is none.
pub fn before(a: &[u8], x: u8) -> &[u8] {
    prefix(a, find(a, 0, x))
}

// What stands behind the first byte x, or nothing where there is none.
pub fn behind(a: &[u8], x: u8) -> &[u8] {
    suffix(a, find(a, 0, x).saturating_add(1))
}

// The first n elements to be written, or all of them where there are fewer.
pub fn lent<T>(page: &mut [T], n: usize) -> &mut [T] {
    let most = n.min(page.len());
    &mut page[..most]
}
