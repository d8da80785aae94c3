// The bytes that come in and those that go out. A read or a write that fails ends nothing by itself: the first error is kept, for the program's end.
ghost use Rattle.std.specs.Prelude.{◌≡◌, ◌<◌, length, take, IsSome, IsNone};
ghost use Rattle.std.specs.Io.KnownBytes.{Consumes, IsAtEnd};
ghost use Rattle.io.specs.Counts.{clamp_len};
ghost use Rattle.replay.specs.Streams.{Writes};

use std::io::{Error, Read, Write};

// Where bytes are read and where they are written, and the first error, if a read or a write has failed.
#[derive(Drop)]
pub struct Streams<R, W> {
    pub input: R,
    pub output: W,
    pub failed: Option<Error>,
}

impl<R: Read, W: Write> Streams<R, W> {
    // A read or a write has failed: the first error is kept.
    fn fail(&mut self, error: Error)
        ensures failed { IsSome self.new.failed }
        ensures first { IsSome self.old.failed → self.new.failed ≡ self.old.failed }
        ensures input { self.new.input ≡ self.old.input }
        ensures output { self.new.output ≡ self.old.output }
    {
        if self.failed.is_none() {
            self.failed = Some(error);
        }
    }

    // One read, to the start of the block: how many bytes it gave, 0 at the end of the input, and -1 where it failed: as C's own `read` tells it,
    // which stands for it in `source/replay.c`.
    pub fn read(&mut self, block: &mut [u8]) -> isize
        ensures given { Consumes (R.remaining self.old.input) (R.remaining self.new.input)
            (take (clamp_len result (length block.new)) block.new) }
        ensures end { IsNone self.new.failed → clamp_len result (length block.new) ≡ 0
            → 0 < length block.new → IsAtEnd (R.remaining self.new.input) }
        ensures failed { IsNone self.new.failed → IsNone self.old.failed }
        ensures output { self.new.output ≡ self.old.output }
    {
        match self.input.read(block) {
            Ok(count) => count as isize,
            Err(error) => {
                self.fail(error);
                -1
            }
        }
    }

    // All of the bytes are written, unless a write fails.
    pub fn write(&mut self, bytes: &[u8])
        ensures written { Writes self.old.failed self.new.failed (W.contents self.old.output) (W.contents self.new.output) bytes.now }
        ensures input { self.new.input ≡ self.old.input }
    {
        if let Err(error) = self.output.write_all(bytes) {
            self.fail(error);
        }
    }
}
