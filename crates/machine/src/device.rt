// "8 to 71, for devices 0 to 63, the waiting process".

// The header word of device 0. That of device d is d behind it.
pub const FIRST: usize = 8;

// Where a device goes by its number plus 1, as in process::DEVICE, its header word is that many behind this one.
pub const BASE: usize = FIRST - 1;

pub const COUNT: usize = 64;

// The last device's number.
pub const LAST: u16 = 63;

// The word of a device whose interrupt is kept.
pub const KEPT: u16 = 0xFFFF;
