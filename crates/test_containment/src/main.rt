// A test program: containment against the direct search on listed permutations, and on the cases of
// standard input. It prints totals and answers, a line each.
#![tactic(auto)]

mod cases;
mod short_pairs;

fn main() {
    short_pairs::lines();
    cases::lines();
}
