// The findings of the tests 3, 4, 6 and 7 with those of one entry more, and test 5.
ghost use Rattle.std.specs.Prelude.{◌<◌, ◌≡◌, length};
ghost use Rattle.forms.specs.SchemeMemory.{entry_in};
ghost use Rattle.scheme.specs.Sized.{SizedEntry};
ghost use Rattle.wellformed.specs.EntryPass.{no_faults, earlier_code, twin_by, WithEntry, RootFault};

use crate::entry_tests::{has_twin_gaps, is_outside, is_permuted, wrong_width};
use forms::memory::Entry;
use forms::order::noted;
use scheme::links::has_entry;
use word::refusal::{Refusal, Refused};

// What the tests 3, 4, 6 and 7 find: the first entry at fault of each.
#[derive(Clone, Copy)]
pub struct EntryFaults {
    pub none: Result<(), Refused>,
    pub twin: Result<(), Refused>,
    pub width: Result<(), Refused>,
    pub position: Result<(), Refused>,
}

// No findings.
pub fn no_faults() -> EntryFaults
    ensures { result ≡ no_faults }
{
    EntryFaults {
        none: Ok(()),
        twin: Ok(()),
        width: Ok(()),
        position: Ok(()),
    }
}

// The findings with those of one entry more, which has the index i.
pub fn with_entry(found: EntryFaults, codes: &[u64], e: Entry, i: usize) -> EntryFaults
    requires { SizedEntry e × (i < length codes.now) }
    ensures { WithEntry found codes.now (entry_in e) i result }
{
    let none = noted(found.none, !is_permuted(e), Refusal::NoPermutation, i);
    let twin = noted(found.twin, is_twin(codes, i, e), Refusal::Repeated, i);
    let width = noted(found.width, wrong_width(e), Refusal::Width, i);
    let position = noted(
        found.position,
        is_outside(e.length, e.rule),
        Refusal::NoPosition,
        i,
    );
    EntryFaults {
        none,
        twin,
        width,
        position,
    }
}

// Whether an entry before the index i has the prefix of e, the one with that index, or e has a
// vector twice.
fn is_twin(codes: &[u64], i: usize, e: Entry) -> bool
    requires { SizedEntry e × (i < length codes.now) }
    ensures { result ≡ twin_by codes.now i (entry_in e) }
{
    stands_before(codes, i) || has_twin_gaps(e)
}

// Whether the code with index i stands before that index.
fn stands_before(codes: &[u64], i: usize) -> bool
    requires { i < length codes.now }
    ensures { result ≡ earlier_code codes.now i }
{
    let code = codes[i];
    for j in (0..i).rev() {
        if code == codes[j] {
            return true;
        }
    }
    false
}

// Test 5: whether no entry has the empty prefix.
pub fn root_fault(codes: &[u64]) -> Result<(), Refused>
    ensures { RootFault codes.now result }
{
    if has_entry(codes, &[]) {
        return Ok(());
    }
    Err(Refusal::Rootless.at(0))
}
