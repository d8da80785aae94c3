// "Buffer, 10 words": the number of each.

// Those of buffer b start at BASE + WORDS * b, behind the words of the processes.
pub const BASE: usize = 62;

pub const WORDS: usize = 10;

// In an event queue.
pub const NEXT: usize = 0;

pub const PREVIOUS: usize = 1;

// The sender.
pub const OWNER: usize = 2;

pub const RECEIVER: usize = 3;

pub const STANDING: usize = 4;

// Ticks since the send, at most MOST_AGE.
pub const AGE: usize = 5;

pub const MOST_AGE: u16 = 65535;

// The first word of the message or answer, and the others.
pub const MESSAGE: usize = 6;

pub const SECOND: usize = 7;

pub const THIRD: usize = 8;

pub const FOURTH: usize = 9;
