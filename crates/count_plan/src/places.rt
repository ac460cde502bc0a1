// The places of the entries in a row of the table, and behind them the width of a row.
ghost use Rattle.std.specs.Prelude.{◌≡◌, ◌≤◌, get_or};
ghost use Rattle.word.specs.Ceilings.{LENGTH};
ghost use Rattle.spacing.specs.Pascal.{Pascal};
ghost use Rattle.count_plan.specs.Plan.{Places};
ghost use Rattle.forms.specs.SchemeMemory.{scheme_in};
ghost use Rattle.scheme.specs.Proper.{Proper};

use forms::memory::Scheme;
use spacing::binomials::choose;
use word::limits::ENTRIES;

// The places of all entries, and one for the width.
pub const PLACES: usize = ENTRIES + 1;

// Where in a row the cells of each entry begin; the place behind the last entry is the number of
// cells of a row.
pub fn places_of(s: Scheme, n: usize, b: &[usize]) -> [usize; PLACES]
    requires { Proper (scheme_in s) × (n ≤ LENGTH) × Pascal b.now }
    ensures { Places n s result }
{
    let mut places = [0usize; PLACES];
    let mut at: usize = 0;
    for i in 0..s.count {
        let e = s.entries[i];
        at += choose(b, n, e.length);
        places[i + 1] = at;
    }
    places
}

// The place with index i; 0 behind the end.
pub fn place_at(places: &[usize], i: usize) -> usize
    ensures { result ≡ get_or places.now i 0 }
{
    places.get(i).copied().unwrap_or(0)
}
