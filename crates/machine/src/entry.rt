// "Five words a process" of the list that a table is laid out by: the number of each.

pub const PRIORITY: usize = 0;

// How many buffers the process owns.
pub const OWNS: usize = 1;

// The name's three words.
pub const NAME: usize = 2;

pub const SECOND_NAME: usize = 3;

pub const THIRD_NAME: usize = 4;

pub const WORDS: usize = 5;
