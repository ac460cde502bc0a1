// A test program: reading and writing texts in the notation, on bad input, there and back, and on
// damaged texts. It prints a line a test.
#![tactic(auto)]

mod cases;
mod damage;
mod line;
mod lists;
mod page;
mod special;
mod texts;

fn main() {
    special::lines();
    cases::lines();
}
