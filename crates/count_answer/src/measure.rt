// What n and the table are refused for, or the layout of the table: worked out once a call.
ghost use Rattle.std.specs.Prelude.{◌≤◌};
ghost use Rattle.word.specs.Ceilings.{LENGTH};
ghost use Rattle.spacing.specs.Pascal.{Pascal};
ghost use Rattle.forms.specs.SchemeMemory.{scheme_in};
ghost use Rattle.scheme.specs.Proper.{Proper};
ghost use Rattle.count_answer.specs.Measuring.{LaidOut, Measured};

use count_entry::frame::{Frame, frame_of, need};
use count_plan::places::{PLACES, places_of};
use count_plan::rows::rows_of;
use forms::memory::Scheme;
use word::limits::LENGTH;
use word::refusal::{Refusal, Refused};

// The layout, and the places of the entries in a row.
#[derive(Clone, Copy)]
pub struct Measure {
    pub frame: Frame,
    pub places: [usize; PLACES],
}

// The layout for the lengths up to n.
pub fn layout_of(scheme: Scheme, n: usize, b: &[usize]) -> Measure
    requires { Proper (scheme_in scheme) × (n ≤ LENGTH) × Pascal b.now }
    ensures { LaidOut scheme n result }
{
    let places = places_of(scheme, n, b);
    let rows = rows_of(scheme);
    let frame = frame_of(&places, n, scheme.count, rows);
    Measure { frame, places }
}

// n above LENGTH is refused, then fewer cells than are needed.
pub fn measured(scheme: Scheme, n: usize, cells: usize, b: &[usize]) -> Result<Measure, Refused>
    requires { Proper (scheme_in scheme) × Pascal b.now }
    ensures { Measured scheme n cells result }
{
    if LENGTH < n {
        return Err(Refusal::Oversize.at(0));
    }
    let layout = layout_of(scheme, n, b);
    if cells < need(layout.frame) {
        return Err(Refusal::ShortTable.at(0));
    }
    Ok(layout)
}
