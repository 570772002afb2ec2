// Theorems over the definitions of the other crates: no code.
#![tactic(auto)]
