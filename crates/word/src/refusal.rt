// The refusals: a case for each row of the table of document 01, in its order, and then those of
// the orders of document 02.
ghost use Rattle.std.specs.Prelude.{◌≡◌};
ghost use Rattle.word.specs.Refusal.{number_of, refused_at};

#[derive(Clone, Copy, PartialEq, Eq)]
pub enum Refusal {
    // text not in the notation
    Misspelt,
    // a ceiling is passed
    Oversize,
    // a digit run is none, or a pattern is ε
    NoPermutation,
    // a pattern, a prefix, or a vector within its entry stands twice
    Repeated,
    // no entry for ε
    Rootless,
    // a vector has not k + 1 components
    Width,
    // deletion outside 1 to k
    NoPosition,
    // an expanding entry lacks a child
    Childless,
    // the shorter prefix has no entry
    NoTarget,
    // the cell at a gap vector is not empty
    LiveGap,
    // some compared sizes differ
    Irreversible,
    // fewer cells than needed
    ShortTable,
    // fewer bytes than the text
    ShortPage,
    // the permutation contains a pattern (02, order 2)
    NoAvoider,
}

// The number of a refusal in the table.
impl From<Refusal> for u8 {
    ghost from_gives = { λ r n. n ≡ number_of r };

    fn from(refusal: Refusal) -> u8 {
        match refusal {
            Refusal::Misspelt => 1,
            Refusal::Oversize => 2,
            Refusal::NoPermutation => 3,
            Refusal::Repeated => 4,
            Refusal::Rootless => 5,
            Refusal::Width => 6,
            Refusal::NoPosition => 7,
            Refusal::Childless => 8,
            Refusal::NoTarget => 9,
            Refusal::LiveGap => 10,
            Refusal::Irreversible => 11,
            Refusal::ShortTable => 12,
            Refusal::ShortPage => 13,
            Refusal::NoAvoider => 14,
        }
    }
}

// A refusal with the index of the pattern or the entry at fault, or 0 where the fault lies in none.
#[derive(Clone, Copy, PartialEq, Eq)]
pub struct Refused {
    pub refusal: Refusal,
    pub index: usize,
}

impl Refusal {
    // The refusal of the item with an index.
    pub fn at(self, index: usize) -> Refused
        ensures { result ≡ refused_at self index }
    {
        Refused {
            refusal: self,
            index,
        }
    }
}
