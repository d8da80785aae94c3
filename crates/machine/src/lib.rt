// What the monitor means (docs/MONITOR.md): definitions in specs/, the part a reader must believe; and its numbers by name, for the code. The names are
// those of the definitions (specs/Numbers.antt) and of the headers for C.
#![tactic(auto)]

pub mod buffer;
pub mod call;
pub mod device;
pub mod edition;
pub mod entry;
pub mod exchange;
pub mod header;
pub mod kind;
pub mod process;
pub mod reason;
pub mod refusal;
pub mod register;
pub mod semaphore;
pub mod standing;
pub mod state;

// "P processes (1 to 32)".
pub const MOST_PROCESSES: usize = 32;

// "B buffers (0 to 128)".
pub const MOST_BUFFERS: usize = 128;

// "Add up to 16".
pub const MOST_SEMAPHORES: usize = 16;

// The words of room that each buffer listed takes.
pub const ROW_WORDS: usize = 5;

// The first word of the answer to a conversation whose receiver is cleaned; the others are 0.
pub const WITHDRAWN: u16 = 0x8000;
