// A process's states: what its word process::STATE says.

pub const STOPPED: u16 = 0;

pub const RUNNING: u16 = 1;

pub const WAITS_EVENT: u16 = 2;

pub const WAITS_ANSWER: u16 = 3;

pub const WAITS_INTERRUPT: u16 = 4;

pub const WAITS_SEMAPHORE: u16 = 5;
