#![tactic(auto)]

// Demand 3 (docs/MONITOR.md, 14): a log read alone says what the table holds. Statements in specs/, their proofs in proofs/. No code.
