// A cursor in a text: it steps past spaces, and from token to token.
ghost use Rattle.std.specs.Prelude.{◌≡◌, ◌+◌, length, drop};
ghost use Rattle.text_grammar.specs.Tokens.{run};
ghost use Rattle.text_grammar.specs.Cursor.{Passed, Stepped, mark_of, width_of};

use crate::marks::{EMPTY, EPSILON, LEFT, RIGHT};

// A place in a text.
#[derive(Clone, Copy)]
pub struct Cursor {
    pub at: usize,
}

// What a token is: nothing where the text ends, a run of digits, a mark, or any other byte.
#[derive(Clone, Copy, PartialEq, Eq)]
pub enum Kind {
    End,
    Digits,
    Epsilon,
    Empty,
    Left,
    Right,
    Byte(u8),
}

// A token: what it is, where it begins, and the cursor behind it.
#[derive(Clone, Copy)]
pub struct Step {
    pub kind: Kind,
    pub from: usize,
    pub next: Cursor,
}

impl Cursor {
    // The cursor moved past spaces. A function of its own in the code too: inside the readers its
    // loop was longer, and slow or quick by the place where it came to lie.
    #[inline(never)]
    pub fn past_spaces(self, s: &[u8]) -> Cursor
        ensures { Passed s.now self.at result.at }
    {
        for at in self.at..s.len() {
            if s[at] != b' ' {
                return Cursor { at };
            }
        }
        Cursor {
            at: self.at.max(s.len()),
        }
    }

    // The next token. A cursor at the end of the text, or behind it, finds the end.
    pub fn step(self, s: &[u8]) -> Step
        ensures { Stepped s.now self.at result }
    {
        let c = self.past_spaces(s);
        let at = c.at;
        if s.len() <= at {
            return Step {
                kind: Kind::End,
                from: at,
                next: c,
            };
        }
        let x = s[at];
        if x.is_ascii_digit() {
            let behind = past_digits(s, at);
            return Step {
                kind: Kind::Digits,
                from: at,
                next: Cursor { at: behind },
            };
        }
        let kind = mark_at(&s[at..], x);
        let behind = at + width(kind);
        Step {
            kind,
            from: at,
            next: Cursor { at: behind },
        }
    }
}

// The place behind the digits that stand from `from` on. A function of its own in the code too:
// with its loop inside the readers' a run of digits takes twice as long.
#[inline(never)]
fn past_digits(s: &[u8], from: usize) -> usize
    ensures { result ≡ from + length (run (drop from s.now)) }
{
    for at in from..s.len() {
        if !s[at].is_ascii_digit() {
            return at;
        }
    }
    from.max(s.len())
}

// The mark with which the text begins, or else its first byte x.
#[tactic(auto, using(crate::proofs::CursorLaws::begins_starts, crate::proofs::CursorLaws::plain), unfolding(crate::specs::Cursor::mark_of))]
fn mark_at(s: &[u8], x: u8) -> Kind
    ensures { result ≡ mark_of x s.now }
{
    // no mark begins with such a byte, and most tokens do
    if 0 < s.len() && s[0] < 0x80 {
        return Kind::Byte(x);
    }
    if s.starts_with(&EPSILON) {
        return Kind::Epsilon;
    }
    if s.starts_with(&EMPTY) {
        return Kind::Empty;
    }
    if s.starts_with(&LEFT) {
        return Kind::Left;
    }
    if s.starts_with(&RIGHT) {
        return Kind::Right;
    }
    Kind::Byte(x)
}

// The number of bytes of a mark or a byte.
fn width(kind: Kind) -> usize
    ensures { result ≡ width_of kind }
{
    match kind {
        Kind::End => 0,
        Kind::Digits => 0,
        Kind::Epsilon => 2,
        Kind::Empty => 3,
        Kind::Left => 3,
        Kind::Right => 3,
        Kind::Byte(_) => 1,
    }
}
