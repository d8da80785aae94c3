#![tactic(auto)]

// Laws about the definitions of `machine` that several rooms cite: a table is sound exactly when it shows a legal machine, one machine
// has one table, a layout is legal, every step keeps a machine legal. Proofs only, no code.
