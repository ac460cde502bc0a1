// Whether a value stands in a list, and whether a list is a permutation.
ghost use Rattle.std.specs.Prelude.{◌≡◌, drop};
ghost use Rattle.word.specs.Word.{is_perm, has};

// Whether x stands in s at the index `from` or later.
pub fn stands_from(s: &[u8], from: usize, x: u8) -> bool
    ensures { result ≡ has x (drop from s.now) }
{
    match s.get(from..) {
        Some(rest) => rest.contains(&x),
        None => false,
    }
}

// Whether s lists 1 to its length, each once.
pub fn is_permutation(s: &[u8]) -> bool
    ensures { result ≡ is_perm s.now }
{
    for (i, &x) in s.iter().enumerate() {
        if x == 0 {
            return false;
        }
        if s.len() < usize::from(x) {
            return false;
        }
        if stands_from(s, i + 1, x) {
            return false;
        }
    }
    true
}
