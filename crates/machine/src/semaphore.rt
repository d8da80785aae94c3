// "Four words each: counter, first and last waiter, zero": the number of each.

// Those of semaphore s start at BASE + WORDS * s, behind the words of the processes and the buffers.
pub const BASE: usize = 68;

pub const WORDS: usize = 4;

// A signed 16-bit number, at most MOST_COUNTER.
pub const COUNTER: usize = 0;

pub const MOST_COUNTER: u16 = 32767;

// A counter's word from this one on is below zero; of this one it is the lowest that there is.
pub const BELOW_ZERO: u16 = MOST_COUNTER + 1;

pub const FIRST: usize = 1;

pub const LAST: usize = 2;

pub const ZERO: usize = 3;
