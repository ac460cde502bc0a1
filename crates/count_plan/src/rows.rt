// How many rows the table keeps for a scheme: one more than the largest set of positions that an
// entry deletes.
ghost use Rattle.std.specs.Prelude.{◌≡◌, ◌≤◌};
ghost use Rattle.word.specs.Ceilings.{COMPONENTS};
ghost use Rattle.forms.specs.SchemeMemory.{does_of, scheme_in};
ghost use Rattle.scheme.specs.Proper.{Proper};
ghost use Rattle.count_plan.specs.Layout.{deleted_by, rows_of};

use forms::memory::{Rule, Scheme};

// How many positions a rule deletes.
fn set_size(rule: Rule) -> usize
    ensures { result ≡ deleted_by (does_of rule) }
{
    match rule {
        Rule::Expand => 0,
        Rule::Delete(d) => usize::from(d.count),
    }
}

// The rows that the table keeps: the row that is filled, and as many before it as the largest set
// of positions has members, of all entries, reached or not.
pub fn rows_of(s: Scheme) -> usize
    requires { Proper (scheme_in s) }
    ensures { (result ≡ rows_of (scheme_in s)) × (1 ≤ result) × (result ≤ COMPONENTS) }
{
    let mut most: usize = 0;
    for i in (0..s.count).rev() {
        let e = s.entries[i];
        let n = set_size(e.rule);
        most = n.max(most);
    }
    most + 1
}
