// Findings in their order: one with the next item.
ghost use Rattle.std.specs.Prelude.{◌≡◌};
ghost use Rattle.forms.specs.SchemeMemory.{or_else, fault_if};

use word::refusal::{Refusal, Refused};

// A finding; where it is clean, the refusal of the item with index i, if that is at fault.
pub fn noted(found: Result<(), Refused>, fails: bool, why: Refusal, i: usize) -> Result<(), Refused>
    ensures { result ≡ or_else found (fault_if fails why i) }
{
    found?;
    refused_if(fails, why, i)
}

// The refusal of the item with index i, where it is at fault.
fn refused_if(fails: bool, why: Refusal, i: usize) -> Result<(), Refused>
    ensures { result ≡ fault_if fails why i }
{
    if fails { Err(why.at(i)) } else { Ok(()) }
}
