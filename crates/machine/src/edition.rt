// What header::EDITION says: "the edition, 0 or 1".

pub const FIRST: u16 = 0;

// An interrupt without a waiter is kept.
pub const SECOND: u16 = 1;
