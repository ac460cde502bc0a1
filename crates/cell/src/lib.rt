// Cells: the definitions, the claims, and the theorems on them, in specs/.
#![tactic(auto)]
