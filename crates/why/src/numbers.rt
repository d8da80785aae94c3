// The machine's numbers as the words are read here: as numbers to count with.
use machine::{edition, process, reason, semaphore, standing, state};

// States.
pub const RUNNING: usize = state::RUNNING as usize;

pub const WAITS_EVENT: usize = state::WAITS_EVENT as usize;

pub const WAITS_ANSWER: usize = state::WAITS_ANSWER as usize;

pub const WAITS_INTERRUPT: usize = state::WAITS_INTERRUPT as usize;

pub const WAITS_SEMAPHORE: usize = state::WAITS_SEMAPHORE as usize;

// Reasons: 0 to the last, but one.
pub const NO_REASON: usize = reason::NONE as usize;

pub const UNUSED_REASON: usize = reason::UNUSED as usize;

pub const LAST_REASON: usize = reason::RAISE as usize;

// Standings.
pub const FREE: usize = standing::FREE as usize;

pub const QUEUED: usize = standing::QUEUED as usize;

pub const HELD: usize = standing::HELD as usize;

pub const ANSWERED: usize = standing::ANSWERED as usize;

pub const ORPHANED: usize = standing::ORPHANED as usize;

// Of a counter's words, the first below zero.
pub const BELOW_ZERO: usize = semaphore::BELOW_ZERO as usize;

pub const LAST_EDITION: usize = edition::SECOND as usize;

pub const MOST_PRIORITY: usize = process::MOST_PRIORITY as usize;
