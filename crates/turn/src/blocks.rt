// The input as it comes, block by block: lines are cut at their ends, and the line begun is kept from one block to the next.
ghost use Rattle.std.specs.Prelude.{◌≡◌, ◌+◌, length};
ghost use Rattle.lines.specs.Replay.{longest};
ghost use Rattle.lines.specs.declared.Parsed.TheVariants.{Other};
ghost use Rattle.turn.specs.InWords.{gathering, LineFits};
ghost use Rattle.turn.specs.Feed.{ReadInPlace, Feeds, TakesEnd, Reading};

use crate::Run;
use crate::begun::LineBegun;
use lines::{LINE_DIGITS, Parsed};

// What is kept of the input from one block to the next.
#[derive(Drop)]
pub struct Reader {
    pub run: Run,
    pub begun: LineBegun,
}

// After the bytes of one line: how many of the block were taken, and the place behind those written.
#[derive(Clone, Copy)]
pub struct Fed {
    pub taken: usize,
    pub next: usize,
}

impl Reader {
    // Before the first byte.
    pub fn new() -> Self
        ensures run { result.run.progress ≡ gathering 0 }
        ensures begun { result.begun.len ≡ 0 }
    {
        Reader {
            run: Run::new(),
            begun: LineBegun::new(),
        }
    }

    // The bytes of one line of the block, one after the other into the line begun.
    fn feed_bytes(&mut self, table: &mut [u16], out: &mut [u8], at: usize, block: &[u8]) -> Fed
        requires { Reading table.old self.old out.old at }
        ensures { Feeds table.old self.old block.now table.new self.new out.old at out.new result }
    {
        let taken = self.begun.fill(block);
        if taken == block.len() {
            return Fed { taken, next: at };
        }
        let next = self.run.turn(table, out, at, self.begun.text());
        self.begun.clear();
        Fed {
            taken: taken + 1,
            next,
        }
    }

    // The first line of the block as it stands there, 26 digits and their end, where none is begun; where it doesn't, another shape.
    fn first_line(&self, block: &[u8]) -> Parsed
        ensures { (result ≡ Other → ⊥) → ReadInPlace self.now.begun.len block.now result }
    {
        if self.begun.is_empty() && LINE_DIGITS < block.len() && block[LINE_DIGITS] == b'\n' {
            return lines::read(&block[..LINE_DIGITS], &self.run.numerals);
        }
        Parsed::Other
    }

    // The bytes of one line of the block, or the whole block where no line ends in it: what the line writes goes into `out` from `at` on.
    pub fn feed(&mut self, table: &mut [u16], out: &mut [u8], at: usize, block: &[u8]) -> Fed
        requires { Reading table.old self.old out.old at }
        ensures { Feeds table.old self.old block.now table.new self.new out.old at out.new result }
    {
        let read = self.first_line(block);
        if let Parsed::Other = read {
            return self.feed_bytes(table, out, at, block);
        }
        Fed {
            taken: LINE_DIGITS + 1,
            next: self.run.take_turn(table, out, at, read),
        }
    }

    // The end of the input: the line begun, if there is one, has its turn as if it had its end, and then the layout is done if it wasn't yet. What
    // they write goes into `out` from `at` on; the place behind it.
    pub fn close(&mut self, table: &mut [u16], out: &mut [u8], at: usize) -> usize
        requires { Reading table.old self.old out.old at × LineFits (at + longest) (length out.old) }
        ensures takes { TakesEnd table.old self.old table.new self.new out.old at out.new result }
        ensures begun { self.new.begun ≡ self.old.begun }
    {
        if self.begun.is_empty() {
            return self.run.finish(table, out, at);
        }
        let next = self.run.turn(table, out, at, self.begun.text());
        self.run.finish(table, out, next)
    }
}
