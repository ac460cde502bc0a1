// Sets of positions, which an entry deletes: read from a text, and in memory.
ghost use Rattle.std.specs.Prelude.{◌≡◌, true, ◌≤◌, length};
ghost use Rattle.text_gaps.specs.GapMemory.{positions_from};
ghost use Rattle.text_gaps.specs.GapReading.{PartsAt};

use crate::gap_reader::{number_at, part};
use forms::memory::{Gap, Positions};
use text_grammar::cursor::{Cursor, Kind};
use word::limits::{COMPONENTS, PREFIX};

// The numbers of a set, and the cursor behind the brace after them. Vectors have a loop of their
// own, with the same laws: one that serves both is slower for a text of vectors
// (docs/DECISIONS.md).
pub fn positions_at(s: &[u8], c: Cursor) -> Option<(Gap, Cursor)>
    requires { c.at ≤ length s.now }
    ensures { PartsAt true s.now c.at result }
{
    let mut parts = [0u8; COMPONENTS];
    let mut width: usize = 0;
    let mut next = c;
    loop {
        let Some((n, behind)) = number_at(s, next) else {
            return None;
        };
        if width < COMPONENTS {
            parts[width] = part(n);
        }
        width += 1;
        let t = behind.step(s);
        next = t.next;
        if t.kind == Kind::Byte(b'}') {
            return Some((Gap { parts, width }, next));
        }
        if t.kind != Kind::Byte(b',') {
            return None;
        }
    }
}

// The first six numbers, and how many there are.
pub fn positions_of(gap: Gap) -> Positions
    ensures { result ≡ positions_from gap }
{
    let mut positions = [0u8; PREFIX];
    positions.copy_from_slice(&gap.parts[..PREFIX]);
    let count = part(gap.width);
    Positions { positions, count }
}
