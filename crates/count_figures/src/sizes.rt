// How many figures a length has.
ghost use Rattle.std.specs.Prelude.{◌≡◌, ◌≤◌};
ghost use Rattle.word.specs.Ceilings.{LENGTH};
ghost use Rattle.word.specs.Inversions.{figure_count};

// One for each of 0, 1, .., n(n - 1)/2 inversions.
pub fn figure_count(n: usize) -> usize
    requires { n ≤ LENGTH }
    ensures { result ≡ figure_count n }
{
    if n == 0 {
        return 1;
    }
    n * (n - 1) / 2 + 1
}
