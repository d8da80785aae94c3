// "Process, 16 words": the number of each.

// Those of process p start at BASE + WORDS * p.
pub const BASE: usize = 56;

pub const WORDS: usize = 16;

// In the running queue, or in the queue of the semaphore that it waits for.
pub const NEXT: usize = 0;

pub const PREVIOUS: usize = 1;

// Of its event queue.
pub const FIRST: usize = 2;

pub const LAST: usize = 3;

pub const STATE: usize = 4;

pub const REASON: usize = 5;

// Delay left.
pub const DELAY: usize = 6;

// Buffer waited for.
pub const AWAITED: usize = 7;

// Device waited for plus 1.
pub const DEVICE: usize = 8;

// 1 to MOST_PRIORITY.
pub const PRIORITY: usize = 9;

pub const MOST_PRIORITY: u16 = 255;

// First own buffer, 0 if it has none.
pub const FIRST_OWN: usize = 10;

// Number of own buffers.
pub const OWNS: usize = 11;

// The name's three words.
pub const NAME: usize = 12;

pub const SECOND_NAME: usize = 13;

pub const THIRD_NAME: usize = 14;

// Semaphore waited for, 0 outside state 5.
pub const SEMAPHORE: usize = 15;
