#![tactic(auto)]

// The second clock (docs/MONITOR.md, 17.3) beside a real log, of what the entries of both promise. Statements in specs/, their proofs in proofs/. No code.
