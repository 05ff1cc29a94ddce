// Theorems only: demand 3, document 01's table and lengths of outputs that are always enough, about the definitions that the contracts of the crates below cite.
#![tactic(auto)]
