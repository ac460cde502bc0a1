// The cells of the table in the order in which they are filled, and what filling them leaves: the
// definitions and the theorems, in specs/.
#![tactic(auto)]
