// Numbers that a test counts and prints.

// Counts one more where it is so. No count of a test comes near the largest number.
pub fn count_if(n: &mut u64, so: bool) {
    *n = n.wrapping_add(u64::from(so));
}
