// The clauses of docs/MONITOR.md, 3, by the numbers that the page gives them; the names are those of the C header.
// On the size.
pub const HEADER: usize = 1;

pub const PROCESSES: usize = 2;

pub const BUFFERS: usize = 3;

pub const SEMAPHORES: usize = 4;

pub const WORDS: usize = 5;

// On fixed words and own buffers.
pub const EDITION: usize = 6;

pub const HEADER_ZERO: usize = 7;

pub const SEMAPHORE_ZERO: usize = 8;

pub const PRIORITY: usize = 9;

pub const NAME: usize = 10;

pub const NAME_TWICE: usize = 11;

pub const FIRST_OWN: usize = 12;

pub const ALL_OWNED: usize = 13;

pub const OWNER: usize = 14;

// On the running queue.
pub const RUNNING_FIRST: usize = 15;

pub const RUNNING_LAST: usize = 16;

pub const RUNNING_START: usize = 17;

pub const RUNNING_NEXT: usize = 18;

pub const RUNNING_BACK: usize = 19;

pub const RUNNING_MET: usize = 20;

pub const PRIORITY_RISES: usize = 21;

pub const PROCESS_LINKED: usize = 22;

// On event queues.
pub const EVENT_FIRST: usize = 23;

pub const EVENT_LAST: usize = 24;

pub const EVENT_START: usize = 25;

pub const EVENT_NEXT: usize = 26;

pub const EVENT_BACK: usize = 27;

pub const EVENT_MET: usize = 28;

pub const BUFFER_LINKED: usize = 29;

// On buffers and semaphores.
pub const STANDING: usize = 30;

pub const FREE: usize = 31;

pub const RECEIVER: usize = 32;

pub const WAITING_FIRST: usize = 33;

pub const WAITING_LAST: usize = 34;

pub const WAITING_START: usize = 35;

pub const WAITING_NEXT: usize = 36;

pub const WAITING_BACK: usize = 37;

pub const WAITING_MET: usize = 38;

pub const COUNTER: usize = 39;

// On processes and devices.
pub const STATE: usize = 40;

pub const REASON: usize = 41;

pub const REASON_LEFT: usize = 42;

pub const AWAITED_SEMAPHORE: usize = 43;

pub const EVENT_THERE: usize = 44;

pub const AWAITED_BUFFER: usize = 45;

pub const AWAITED_DEVICE: usize = 46;

pub const DELAY: usize = 47;

pub const DEVICE: usize = 48;
