#![tactic(auto)]

// Theorems about machines that only `log` and `monitor` cite: equals take turns, interrupts and waiters at semaphores aren't lost,
// conversations grow older, cleaning twice and in either order. Proofs only, no code.
