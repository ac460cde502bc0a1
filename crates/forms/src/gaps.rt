// One gap vector of the array in which an entry keeps the components of all of them.
ghost use Rattle.std.specs.Prelude.{◌≡◌, ◌*◌, ◌<◌};
ghost use Rattle.std.proofs.lemmas.List.Edits.{sets};
ghost use Rattle.word.specs.Ceilings.{COMPONENTS, GAPS};
ghost use Rattle.forms.specs.GapForm.{gap_from, entry_gap};

use crate::memory::{Entry, Gap};
use word::limits::{COMPONENTS, GAPS, PARTS};

// The vector with index j.
pub fn gap_at(gaps: [u8; PARTS], widths: [u8; GAPS], j: usize) -> Gap
    requires { j < GAPS }
    ensures { result ≡ gap_from gaps widths j }
{
    let width = usize::from(widths[j]);
    let from = COMPONENTS * j;
    let mut parts = [0u8; COMPONENTS];
    parts.copy_from_slice(&gaps[from..from + COMPONENTS]);
    Gap { parts, width }
}

// The vector of an entry with index j.
pub fn entry_gap(e: Entry, j: usize) -> Gap
    requires { j < GAPS }
    ensures { result ≡ entry_gap e j }
{
    let gaps = e.gaps;
    let widths = e.widths;
    gap_at(gaps, widths, j)
}

// The components with those of one vector at index j.
pub fn with_gap(gaps: [u8; PARTS], j: usize, parts: [u8; COMPONENTS]) -> [u8; PARTS]
    requires { j < GAPS }
    ensures { result ≡ sets gaps (COMPONENTS * j) parts }
{
    let start = COMPONENTS * j;
    let mut stored = gaps;
    stored[start..start + COMPONENTS].copy_from_slice(&parts);
    stored
}
