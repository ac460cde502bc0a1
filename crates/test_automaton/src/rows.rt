// The automaton's states, what it does at a byte, and its table: rows in four tables, which are
// quicker to check than one.

// Where reading stands.
#[derive(Clone, Copy, PartialEq, Eq)]
pub enum State {
    // reading of a pattern set begins
    Set,
    // reading of a scheme begins
    Scheme,
    // the text may end
    End,
    // behind one byte of the mark ∅ that is the whole text
    NoItems1,
    // behind two bytes of it
    NoItems2,
    // before a pattern
    Pattern,
    // behind one byte of ε as a pattern
    Pattern1,
    // in the digits of a pattern
    PatternRun,
    // behind a pattern
    PatternPast,
    // before an entry
    Entry,
    // behind an entry
    EntryPast,
    // before a prefix
    Prefix,
    // behind one byte of ε as a prefix
    Prefix1,
    // in the digits of a prefix
    PrefixRun,
    // behind a prefix
    PrefixPast,
    // before the second part of an entry
    Gaps,
    // behind one byte of ∅ as the second part
    Gaps1,
    // behind two bytes of it
    Gaps2,
    // behind the second part
    GapsPast,
    // before a gap vector
    Gap,
    // behind one byte of its ⟨
    Gap1,
    // behind two bytes of its ⟨
    Gap2,
    // behind one byte of its ⟩
    Closing1,
    // behind two bytes of its ⟩
    Closing2,
    // behind a gap vector
    GapPast,
    // before a component
    Part,
    // behind its first digit, which is no 0
    Part1,
    // behind its second digit
    Part2,
    // behind a component
    PartPast,
    // before the third part of an entry
    Rule,
    // behind one byte of ∅ as the third part
    Rule1,
    // behind two bytes of it
    Rule2,
    // behind the third part
    RulePast,
    // before a position
    Place,
    // behind its first digit, which is no 0
    Place1,
    // behind its second digit
    Place2,
    // behind a position
    PlacePast,
}

// What is done at a byte.
#[derive(Clone, Copy)]
pub enum Act {
    // nothing is done
    Skip,
    // the digit goes to the list
    Digit,
    // the digit begins a number
    First,
    // the digit goes on a number
    Next,
    // the number goes to the list
    Put,
    // a stop goes to the list
    Close,
}

// A row: from a state, at a byte from one to another, to a state, what is done.
pub type Row = (State, u8, u8, State, Act);

// the rows of a pattern set, and of the end of any text
const SET_ROWS: &[Row] = &[
    (State::Set, b' ', b' ', State::Set, Act::Skip),
    (State::Set, 0xE2, 0xE2, State::NoItems1, Act::Skip),
    (State::Set, b'{', b'{', State::Pattern, Act::Skip),
    (State::NoItems1, 0x88, 0x88, State::NoItems2, Act::Skip),
    (State::NoItems2, 0x85, 0x85, State::End, Act::Skip),
    (State::Pattern, b' ', b' ', State::Pattern, Act::Skip),
    (State::Pattern, b'0', b'9', State::PatternRun, Act::Digit),
    (State::Pattern, 0xCE, 0xCE, State::Pattern1, Act::Skip),
    (State::Pattern1, 0xB5, 0xB5, State::PatternPast, Act::Skip),
    (State::PatternRun, b'0', b'9', State::PatternRun, Act::Digit),
    (State::PatternRun, b' ', b' ', State::PatternPast, Act::Skip),
    (State::PatternRun, b',', b',', State::Pattern, Act::Close),
    (State::PatternRun, b'}', b'}', State::End, Act::Close),
    (
        State::PatternPast,
        b' ',
        b' ',
        State::PatternPast,
        Act::Skip,
    ),
    (State::PatternPast, b',', b',', State::Pattern, Act::Close),
    (State::PatternPast, b'}', b'}', State::End, Act::Close),
    (State::End, b' ', b' ', State::End, Act::Skip),
];
// the rows of a scheme, its entries and their prefixes
const ENTRY_ROWS: &[Row] = &[
    (State::Scheme, b' ', b' ', State::Scheme, Act::Skip),
    (State::Scheme, 0xE2, 0xE2, State::NoItems1, Act::Skip),
    (State::Scheme, b'{', b'{', State::Entry, Act::Skip),
    (State::Entry, b' ', b' ', State::Entry, Act::Skip),
    (State::Entry, b'(', b'(', State::Prefix, Act::Skip),
    (State::Prefix, b' ', b' ', State::Prefix, Act::Skip),
    (State::Prefix, b'0', b'9', State::PrefixRun, Act::Digit),
    (State::Prefix, 0xCE, 0xCE, State::Prefix1, Act::Skip),
    (State::Prefix1, 0xB5, 0xB5, State::PrefixPast, Act::Skip),
    (State::PrefixRun, b'0', b'9', State::PrefixRun, Act::Digit),
    (State::PrefixRun, b' ', b' ', State::PrefixPast, Act::Skip),
    (State::PrefixRun, b',', b',', State::Gaps, Act::Close),
    (State::PrefixPast, b' ', b' ', State::PrefixPast, Act::Skip),
    (State::PrefixPast, b',', b',', State::Gaps, Act::Close),
    (State::EntryPast, b' ', b' ', State::EntryPast, Act::Skip),
    (State::EntryPast, b',', b',', State::Entry, Act::Skip),
    (State::EntryPast, b'}', b'}', State::End, Act::Skip),
];
// the rows of the second part of an entry
const GAP_ROWS: &[Row] = &[
    (State::Gaps, b' ', b' ', State::Gaps, Act::Skip),
    (State::Gaps, 0xE2, 0xE2, State::Gaps1, Act::Skip),
    (State::Gaps1, 0x88, 0x88, State::Gaps2, Act::Skip),
    (State::Gaps2, 0x85, 0x85, State::GapsPast, Act::Skip),
    (State::Gaps, b'{', b'{', State::Gap, Act::Skip),
    (State::Gap, b' ', b' ', State::Gap, Act::Skip),
    (State::Gap, 0xE2, 0xE2, State::Gap1, Act::Skip),
    (State::Gap1, 0x9F, 0x9F, State::Gap2, Act::Skip),
    (State::Gap2, 0xA8, 0xA8, State::Part, Act::Skip),
    (State::Part, b' ', b' ', State::Part, Act::Skip),
    (State::Part, b'0', b'0', State::PartPast, Act::First),
    (State::Part, b'1', b'9', State::Part1, Act::First),
    (State::Part1, b'0', b'9', State::Part2, Act::Next),
    (State::Part1, b' ', b' ', State::PartPast, Act::Skip),
    (State::Part1, b',', b',', State::Part, Act::Put),
    (State::Part1, 0xE2, 0xE2, State::Closing1, Act::Put),
    (State::Part2, b'0', b'9', State::PartPast, Act::Next),
    (State::Part2, b' ', b' ', State::PartPast, Act::Skip),
    (State::Part2, b',', b',', State::Part, Act::Put),
    (State::Part2, 0xE2, 0xE2, State::Closing1, Act::Put),
    (State::PartPast, b' ', b' ', State::PartPast, Act::Skip),
    (State::PartPast, b',', b',', State::Part, Act::Put),
    (State::PartPast, 0xE2, 0xE2, State::Closing1, Act::Put),
    (State::Closing1, 0x9F, 0x9F, State::Closing2, Act::Skip),
    (State::Closing2, 0xA9, 0xA9, State::GapPast, Act::Close),
    (State::GapPast, b' ', b' ', State::GapPast, Act::Skip),
    (State::GapPast, b',', b',', State::Gap, Act::Skip),
    (State::GapPast, b'}', b'}', State::GapsPast, Act::Skip),
    (State::GapsPast, b' ', b' ', State::GapsPast, Act::Skip),
    (State::GapsPast, b',', b',', State::Rule, Act::Close),
];
// the rows of the third part of an entry
const RULE_ROWS: &[Row] = &[
    (State::Rule, b' ', b' ', State::Rule, Act::Skip),
    (State::Rule, 0xE2, 0xE2, State::Rule1, Act::Skip),
    (State::Rule1, 0x88, 0x88, State::Rule2, Act::Skip),
    (State::Rule2, 0x85, 0x85, State::RulePast, Act::Skip),
    (State::Rule, b'{', b'{', State::Place, Act::Skip),
    (State::Place, b' ', b' ', State::Place, Act::Skip),
    (State::Place, b'0', b'0', State::PlacePast, Act::First),
    (State::Place, b'1', b'9', State::Place1, Act::First),
    (State::Place1, b'0', b'9', State::Place2, Act::Next),
    (State::Place1, b' ', b' ', State::PlacePast, Act::Skip),
    (State::Place1, b',', b',', State::Place, Act::Put),
    (State::Place1, b'}', b'}', State::RulePast, Act::Put),
    (State::Place2, b'0', b'9', State::PlacePast, Act::Next),
    (State::Place2, b' ', b' ', State::PlacePast, Act::Skip),
    (State::Place2, b',', b',', State::Place, Act::Put),
    (State::Place2, b'}', b'}', State::RulePast, Act::Put),
    (State::PlacePast, b' ', b' ', State::PlacePast, Act::Skip),
    (State::PlacePast, b',', b',', State::Place, Act::Put),
    (State::PlacePast, b'}', b'}', State::RulePast, Act::Put),
    (State::RulePast, b' ', b' ', State::RulePast, Act::Skip),
    (State::RulePast, b')', b')', State::EntryPast, Act::Close),
];

// The row of a state and a byte, if one leads on.
pub fn row_for(state: State, x: u8) -> Option<Row> {
    let mut rows = SET_ROWS
        .iter()
        .chain(ENTRY_ROWS)
        .chain(GAP_ROWS)
        .chain(RULE_ROWS);
    rows.find(|(from, low, high, _, _)| *from == state && *low <= x && x <= *high)
        .copied()
}
