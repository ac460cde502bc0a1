// What a search for a completion says, and how many words it may still try.
ghost use Rattle.std.specs.Prelude.{◌≡◌, ◌||◌, is_none};
ghost use Rattle.arrangement.specs.Said.{said_yes, said_no};
ghost use Rattle.arrangement.specs.Budget.{less_one, spent};

use word::limits::WORD;

// Yes, with a completion; no, there is none, and so many words of the budget are left; or neither,
// where the budget did not last. A budget of None is without end.
#[derive(Clone, Copy)]
pub enum Searched {
    Completed([u8; WORD]),
    Impossible(Option<usize>),
    Undecided,
}

impl Searched {
    // Whether it is a yes or a no.
    pub fn is_decided(self) -> bool
        ensures { result ≡ said_yes self || said_no self }
    {
        match self {
            Searched::Completed(_) => true,
            Searched::Impossible(_) => true,
            Searched::Undecided => false,
        }
    }
}

// A budget with one word less.
pub fn one_less(budget: Option<usize>) -> Option<usize>
    ensures value { result ≡ less_one budget }
    ensures endless { is_none result ≡ is_none budget }
{
    budget.map(|words| words.saturating_sub(1))
}

// Whether no word may be tried any more.
pub fn is_spent(budget: Option<usize>) -> bool
    ensures { result ≡ spent budget }
{
    match budget {
        Some(words) => words == 0,
        None => false,
    }
}
