// The line begun: what the blocks so far have of a line that hasn't come to its end.
ghost use Rattle.std.specs.Prelude.{List, [], ◌++◌, ◌∷◌, ◌≡◌, ℕ, ◌≤◌, length, take, eqb};
ghost use Rattle.turn.specs.Begun.{Begun, Fills};

use lines::LINE_DIGITS;

// How many of its bytes are kept.
pub const BEGUN_BYTES: usize = LINE_DIGITS + 1;

// Its first bytes and how many, 27 for more than 26: those are of another shape, whatever they are.
#[derive(Drop)]
pub struct LineBegun {
    pub bytes: [u8; BEGUN_BYTES],
    pub len: usize,
    pub ghost few: { (length bytes ≡ 27) × (len ≤ 27) },
}

impl LineBegun {
    // None is begun.
    pub(crate) fn new() -> Self
        ensures { result.len ≡ 0 }
    {
        LineBegun {
            bytes: [0; BEGUN_BYTES],
            len: 0,
        }
    }

    pub(crate) fn is_empty(&self) -> bool
        ensures { result ≡ eqb self.now.len 0 }
    {
        self.len == 0
    }

    // What there is of it.
    pub(crate) fn text(&self) -> &[u8]
        ensures { result.now ≡ take self.now.len self.now.bytes }
    {
        &self.bytes[..self.len]
    }

    // It has come to its end.
    pub(crate) fn clear(&mut self)
        ensures { self.new.len ≡ 0 }
    {
        self.len = 0;
    }

    // One byte more.
    fn put(&mut self, byte: u8)
        ensures { (l : List ℕ) → Begun l self.old.bytes self.old.len → Begun (l ++ (byte ∷ [])) self.new.bytes self.new.len }
    {
        if LINE_DIGITS < self.len {
            return;
        }
        self.bytes[self.len] = byte;
        self.len += 1;
    }

    // The bytes of the block up to the end of a line, or all of them: how many.
    pub(crate) fn fill(&mut self, block: &[u8]) -> usize
        ensures { Fills self.old.bytes self.new.bytes self.old.len self.new.len block.now result }
    {
        for i in 0..block.len() {
            if block[i] == b'\n' {
                return i;
            }
            self.put(block[i]);
        }
        block.len()
    }
}
