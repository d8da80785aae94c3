// The kinds of an answer to a call that waits. For one that found nothing, and whose caller waits, the kind is 0.

pub const MESSAGE: u16 = 1;

pub const ANSWER: u16 = 2;

// An interrupt that was kept.
pub const KEPT: u16 = 3;
