// A block of input on the lent words, lines at a time: what they answer is gathered in `out`. Nothing is read or written here.
ghost use Rattle.std.specs.Prelude.{◌<◌, ◌≤◌, length};
ghost use Rattle.turn.specs.InWords.{LineFits};
ghost use Rattle.replay.specs.Open.{lent, IsStart, Open, TakesPart};

use machine::{MOST_BUFFERS, MOST_PROCESSES, buffer, header, process};
use turn::LONGEST;
use turn::blocks::{Fed, Reader};

// The words of the largest table without semaphores: 1,864.
const TABLE_WORDS: usize = header::WORDS
    + MOST_PROCESSES * process::WORDS
    + MOST_BUFFERS * buffer::WORDS;

// What is kept of a run from one read to the next: its table, and what reads its lines.
#[derive(Drop)]
pub struct Kept {
    pub table: [u16; TABLE_WORDS],
    pub reader: Reader,
}

impl Kept {
    // Before the first line.
    pub fn new() -> Self
        ensures { IsStart (lent result) }
    {
        Kept {
            table: [0; TABLE_WORDS],
            reader: Reader::new(),
        }
    }

    // The bytes of one more line of the block, of which some were taken: what it answers goes behind what was gathered.
    fn advance(&mut self, out: &mut [u8], block: &[u8], fed: Fed) -> Fed
        requires { Open (lent self.old) out.old × (fed.taken < length block.now) × LineFits fed.next (length out.old) }
        ensures { TakesPart block.now fed.taken (lent self.old) (lent self.new) out.old fed.next out.new result × (fed.taken < result.taken) }
    {
        let one = self
            .reader
            .feed(&mut self.table, out, fed.next, &block[fed.taken..]);
        Fed {
            taken: fed.taken + one.taken,
            ..one
        }
    }

    // As many lines of the block from there on as there is room for, and at least one: what they answer is gathered from the start of `out` on.
    pub fn take_lines(&mut self, out: &mut [u8], block: &[u8], from: usize) -> Fed
        requires { Open (lent self.old) out.old × (from < length block.now) }
        ensures { TakesPart block.now from (lent self.old) (lent self.new) out.old 0 out.new result × (from < result.taken) }
    {
        let mut fed = Fed {
            taken: from,
            next: 0,
        };
        while (fed.taken < block.len()) & (fed.next <= out.len() - LONGEST) {
            fed = self.advance(out, block, fed);
        }
        fed
    }
}
