// Why a process last woke: what its word process::REASON says.

pub const NONE: u16 = 0;

pub const EVENT: u16 = 1;

// Its delay ran out.
pub const DELAY: u16 = 2;

pub const INTERRUPT: u16 = 3;

// There is no such reason.
pub const UNUSED: u16 = 4;

// Of the semaphore that it waited for.
pub const RAISE: u16 = 5;
