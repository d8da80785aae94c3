// "Header: 0 P, 1 B, 2 first and 3 last of the running queue", and what came later: the number of each word.

pub const PROCESSES: usize = 0;

pub const BUFFERS: usize = 1;

// Of the running queue: who is current.
pub const FIRST: usize = 2;

pub const LAST: usize = 3;

pub const EDITION: usize = 4;

// "Telling how many".
pub const SEMAPHORES: usize = 5;

// Two words that are zero.
pub const ZERO: usize = 6;

pub const SECOND_ZERO: usize = 7;

// The header ends with the devices' words.
pub const WORDS: usize = 72;
