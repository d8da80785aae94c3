// The register record that the trap code lends, as words: the number of each. The first seven go in and stay, the last eight are the answer.

pub const CALL: usize = 0;

// The parts of a call.
pub const A: usize = 1;

pub const B: usize = 2;

// The words of a message or an answer.
pub const W0: usize = 3;

pub const W1: usize = 4;

pub const W2: usize = 5;

pub const W3: usize = 6;

pub const NUMBER: usize = 7;

pub const KIND: usize = 8;

pub const BUFFER: usize = 9;

pub const CURRENT: usize = 10;

// The words that are given.
pub const R0: usize = 11;

pub const R1: usize = 12;

pub const R2: usize = 13;

pub const R3: usize = 14;

pub const WORDS: usize = 15;
