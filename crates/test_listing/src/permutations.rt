// The permutations of a length of at most eight, each once, by a number. Each is the first `n`
// entries of an array of eight.
ghost use Rattle.std.specs.Prelude.{◌≤◌};

// the length of the longest permutations
pub const LONGEST: usize = 8;

// How many permutations of length n, at most LONGEST, there are.
pub fn count(n: usize) -> usize
    ensures { 1 ≤ result }
{
    match n {
        0 => 1,
        1 => 1,
        2 => 2,
        3 => 6,
        4 => 24,
        5 => 120,
        6 => 720,
        7 => 5040,
        _ => 40320,
    }
}

// The permutation of length n with a number below their count. The entries 1 to n stand in their
// order; then each from the second on is exchanged with itself or one before it. The number says
// which: its remainder by 2 for the second, that of the quotient by 3 for the third, and so on.
pub fn permutation(n: usize, number: usize) -> [u8; LONGEST] {
    let mut a = [1u8, 2, 3, 4, 5, 6, 7, 8];
    let mut rest = number;
    for i in 1..n.min(LONGEST) {
        a.swap(i, rest % (i + 1));
        rest /= i + 1;
    }
    a
}

// The permutation of length n that a number of others, less than their count, come before in
// lexicographic order. The entries 1 to n stand in their order; then for each index, from the first
// on, one of those from there on is brought to it, and the others stay in their order. The number
// says which: so many permutations have each of them there and the same entries before it.
pub fn ordered(n: usize, number: usize) -> [u8; LONGEST] {
    let mut a = [1u8, 2, 3, 4, 5, 6, 7, 8];
    let mut rest = number;
    for i in 0..n.min(LONGEST) {
        let each = count(n - 1 - i);
        let end = (i + 1).saturating_add(rest / each).min(LONGEST);
        a[i..end].rotate_right(1);
        rest %= each;
    }
    a
}
