// What goes in and what comes back: a call and its answer.

// "A message is four 16-bit words", and so is an answer.
#[derive(Clone, Copy)]
pub struct Words {
    pub w0: u16,
    pub w1: u16,
    pub w2: u16,
    pub w3: u16,
}

pub const ZEROS: Words = Words {
    w0: 0,
    w1: 0,
    w2: 0,
    w3: 0,
};

// A call by its number, with its parts.
#[derive(Clone, Copy)]
pub struct Call {
    pub number: u16,
    pub a: u16,
    pub b: u16,
    pub words: Words,
}

// "An answer has number, kind, buffer, current afterwards, four words".
#[derive(Clone, Copy)]
pub struct Answer {
    pub number: u16,
    pub kind: u16,
    pub buffer: u16,
    pub current: u16,
    pub words: Words,
}
