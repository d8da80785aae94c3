#![tactic(auto)]

// Laws about lists, numbers, tests and links of queues that several rooms cite; they know the definitions' lists, and nothing of a machine.
// Proofs only, no code.
