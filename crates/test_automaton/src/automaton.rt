// Reading by a finite automaton over the bytes, given by the table of rows.rt. It shares no code
// with the crate `notation`: it has no cursor, no tokens and no parts, and no memory beside its
// state, one number and the list read so far.
use crate::flat::{Flat, STOP};
use crate::rows::{Act, State, row_for};

// Where reading stands: the state, if something led there, the number that was begun last, and the
// list so far.
#[derive(Clone, Copy)]
pub struct Machine {
    state: Option<State>,
    value: u64,
    pub list: Flat,
}

// Where reading stands behind the whole text, begun at one of two states.
pub fn run(start: State, text: &[u8]) -> Machine {
    let mut m = Machine {
        state: Some(start),
        value: 0,
        list: Flat::new(),
    };
    for x in text {
        m.step(*x);
    }
    m
}

impl Machine {
    // Whether the text may end there.
    pub fn is_end(&self) -> bool {
        self.state == Some(State::End)
    }

    // One byte further.
    fn step(&mut self, x: u8) {
        let row = self.state.and_then(|state| row_for(state, x));
        self.state = row.map(|(_, _, _, to, _)| to);
        if let Some((_, _, _, _, act)) = row {
            self.act(act, u64::from(x.saturating_sub(b'0')));
        }
    }

    // What is done with a digit.
    fn act(&mut self, act: Act, digit: u64) {
        match act {
            Act::Skip => {}
            Act::Digit => self.list.push(digit),
            Act::First => self.value = digit,
            Act::Next => self.value = (self.value % 100 * 10).wrapping_add(digit),
            Act::Put => self.list.push(self.value),
            Act::Close => self.list.push(STOP),
        }
    }
}
