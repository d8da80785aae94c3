// The numbers of the paper tape reader, by the names of the C header.
// Modes. In the last two a byte with the wrong parity becomes another character, and the top bit is taken off.
pub const BINARY: u16 = 1;

pub const ODD: u16 = 5;

pub const EVEN: u16 = 9;

// The character that a byte with the wrong parity becomes.
pub const WRONG_PARITY: u8 = 26;

// Words of a table that count.
pub const TABLE_WORDS_MOST: usize = 65536;

// An entry of the table is a word, the class left and the value right: a class is so many words.
pub const CLASS_WORDS: u16 = 256;

// How often a character is looked up at most.
pub const LOOKUPS_MOST: u8 = 8;

// Classes, beside 0: from the last one on the value is delivered, and the status says so.
pub const SKIP: u16 = 128;

pub const DOWN: u16 = 129;

pub const UP: u16 = 130;

pub const END: u16 = 132;

pub const PARITY: u16 = 136;

// The status of an operation in which such a class came up.
pub const STATUS_PARITY: u16 = 0x0020;

// The number of an answer that isn't a refusal.
pub const DONE: u16 = 0;

// Why an operation is refused, each with its number.
#[derive(Clone, Copy)]
pub enum Refusal {
    OtherMode = 15,
    NinthLookup = 16,
    OutsideTable = 17,
    ClassNotListed = 18,
}
