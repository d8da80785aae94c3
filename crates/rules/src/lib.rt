#![tactic(auto)]

// Rules for a walk by hand, where a function takes a reference to a struct. Proofs only, no code.
