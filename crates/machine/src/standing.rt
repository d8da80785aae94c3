// A buffer's standings: what its word buffer::STANDING says.

pub const FREE: u16 = 0;

// In the receiver's event queue.
pub const QUEUED: u16 = 1;

// By the receiver, who owes an answer.
pub const HELD: u16 = 2;

// In the owner's event queue.
pub const ANSWERED: u16 = 3;

// Held, and the owner was cleaned since.
pub const ORPHANED: u16 = 4;
