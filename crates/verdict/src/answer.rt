// The answer of judging: an acceptance with the number of compared cells, or a refusal with its
// index.
ghost use Rattle.std.specs.Prelude.{◌≡◌};
ghost use Rattle.verdict.specs.Verdict.{answered};

use word::refusal::Refused;

// The refusal that a finding is, or an acceptance with so many compared cells.
pub fn answer(found: Result<(), Refused>, cells: usize) -> Result<usize, Refused>
    ensures { result ≡ answered found cells }
{
    match found {
        Ok(()) => Ok(cells),
        Err(refused) => Err(refused),
    }
}
