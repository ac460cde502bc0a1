// The sum of two values.
ghost use Rattle.std.specs.Prelude.{◌≡◌, ◌+◌};
ghost use Rattle.count_step.specs.Step.{capped};

// The sum, or the largest number of 64 bits where the sum is larger. In an accepted scheme no sum
// is (count_rows/specs/OverflowLaws.antt); any other content of the table gives some value, and no
// overflow.
pub fn capped_sum(x: u64, y: u64) -> u64
    ensures { result ≡ capped (x + y) }
{
    x.saturating_add(y)
}
