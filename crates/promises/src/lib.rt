// The promises, as theorems over the definitions and contracts of the other crates. No code stands here.

#![tactic(auto)]
