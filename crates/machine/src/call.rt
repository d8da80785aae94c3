// The numbers of the calls.

pub const SEND: u16 = 1;

pub const WAIT_ANSWER: u16 = 2;

pub const WAIT_EVENT: u16 = 3;

pub const SEND_ANSWER: u16 = 4;

pub const WAIT_INTERRUPT: u16 = 5;

pub const START: u16 = 6;

pub const STOP: u16 = 7;

pub const CLEAN: u16 = 8;

pub const TICK: u16 = 9;

pub const INTERRUPT: u16 = 10;

pub const LIST: u16 = 11;

pub const LOWER: u16 = 12;

pub const RAISE: u16 = 13;

// "Call number not 01 to 0D".
pub const LAST: u16 = RAISE;
