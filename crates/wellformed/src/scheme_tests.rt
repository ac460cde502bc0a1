// The tests 2 to 9 of a scheme list in memory, in their order.
ghost use Rattle.std.specs.Prelude.{◌≡◌};
ghost use Rattle.word.specs.Finding.{first_fault};
ghost use Rattle.forms.specs.SchemeMemory.{scheme_in, fault_of, or_else};
ghost use Rattle.scheme.specs.WellFormed.{scheme_tests};
ghost use Rattle.wellformed.specs.EntryPass.{EntriesFault};

use crate::entry_pass::{EntryFaults, no_faults, root_fault, with_entry};
use crate::entry_tests::large_entry;
use forms::memory::Scheme;
use scheme::links::{LinkFaults, entry_code, link_faults};
use word::limits::ENTRIES;
use word::refusal::{Refusal, Refused};

// What the tests 2 to 9 find in a scheme list: the first fault in their order. One pass over the
// entries makes the tests 2, 3, 4, 6 and 7 and the codes of all prefixes, which the tests 5, 8 and
// 9 are made with.
pub fn scheme_fault(s: Scheme) -> Result<(), Refused>
    ensures { result ≡ fault_of (first_fault (scheme_tests (scheme_in s))) }
{
    let n = s.count;
    if ENTRIES < n {
        return Err(Refusal::Oversize.at(0));
    }
    let mut codes = [0u64; ENTRIES];
    let mut found = no_faults();
    for i in 0..n {
        let e = s.entries[i];
        if large_entry(e) {
            return Err(Refusal::Oversize.at(i));
        }
        codes[i] = entry_code(e);
        found = with_entry(found, &codes, e, i);
    }
    entry_fault(found, &codes[..n])?;
    link_fault(link_faults(s, &codes[..n]))
}

// The earliest of what the tests 3 to 7 find.
fn entry_fault(found: EntryFaults, codes: &[u64]) -> Result<(), Refused>
    ensures { EntriesFault found codes.now result }
{
    found.none?;
    found.twin?;
    root_fault(codes)?;
    found.width?;
    found.position
}

// The earlier of what the tests 8 and 9 find.
fn link_fault(found: LinkFaults) -> Result<(), Refused>
    ensures { result ≡ or_else found.child found.target }
{
    found.child?;
    found.target
}
