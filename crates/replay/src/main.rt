#![tactic(auto)]
// The replay: lines of hexadecimal digits come in on standard input, and what the monitor answers goes out on standard output.
// Whatever is read or written is read or written by `streams`, for `read_block`, `write_lines` and `end`.
mod blocks;
mod streams;
#[cfg(test)]
mod tests;

ghost use Rattle.std.specs.Prelude.{List, ◌≡◌, ℕ, ◌≤◌, ◌<◌, length, take, Some, IsNone};
ghost use Rattle.std.specs.Io.KnownBytes.{Appends, Consumes, IsAtEnd};
ghost use Rattle.io.specs.Counts.{clamp_len};
ghost use Rattle.lines.specs.Replay.{replay as replay_of};
ghost use Rattle.turn.specs.Feed.{point_after, adds, closing};
ghost use Rattle.replay.specs.Open.{lent, Holds, Open, Read, TakesPart, TakesAll, TakesRead, ReadsAll, Ends, Replayed, ends_reading, most_reads};
ghost use Rattle.replay.specs.Streams.{Writes, Streamed, WritesAll};

use blocks::Kept;
use std::io::{Read, Result, Write};
use streams::Streams;
use turn::Progress;
use turn::blocks::Fed;

// As many lines of the block from there on as there is room for, and what they answer is written: the bytes at the start of `out`, up to the place
// returned.
fn write_lines<R: Read, W: Write>(
    streams: &mut Streams<R, W>,
    kept: &mut Kept,
    out: &mut [u8],
    block: &[u8],
    from: usize,
) -> Fed
    requires { Open (lent kept.old) out.old × (from < length block.now) }
    ensures taken { TakesPart block.now from (lent kept.old) (lent kept.new) out.old 0 out.new result × (from < result.taken) }
    ensures written { Writes streams.old.failed streams.new.failed (W.contents streams.old.output)
        (W.contents streams.new.output) (take result.next out.new) }
    ensures input { streams.new.input ≡ streams.old.input }
{
    let gathered = kept.take_lines(out, block, from);
    streams.write(&out[..gathered.next]);
    gathered
}

// The whole block, as many lines at a time as there is room for.
fn take_block<R: Read, W: Write>(
    streams: &mut Streams<R, W>,
    kept: &mut Kept,
    out: &mut [u8],
    block: &[u8],
)
    requires { Open (lent kept.old) out.old }
    ensures taken { TakesAll block.now (lent kept.old) (lent kept.new) out.new }
    ensures written { (input : List ℕ) → Holds input (lent kept.old)
        → Writes streams.old.failed streams.new.failed (W.contents streams.old.output)
        (W.contents streams.new.output) (adds input block.now) }
    ensures input { streams.new.input ≡ streams.old.input }
{
    let mut taken = 0;
    while taken < block.len() {
        taken = write_lines(streams, kept, out, block, taken).taken;
    }
}

// What comes of a read that answered `got`: that many bytes at the start of `block` are taken, none where it is 0 or below. How many.
fn take_read<R: Read, W: Write>(
    streams: &mut Streams<R, W>,
    kept: &mut Kept,
    out: &mut [u8],
    block: &[u8],
    got: isize,
) -> usize
    requires { Open (lent kept.old) out.old }
    ensures taken { TakesRead got block.now (lent kept.old) (lent kept.new) out.new result }
    ensures written { (input : List ℕ) → Holds input (lent kept.old)
        → Writes streams.old.failed streams.new.failed (W.contents streams.old.output)
        (W.contents streams.new.output)
        (adds input (take (clamp_len got (length block.now)) block.now)) }
    ensures input { streams.new.input ≡ streams.old.input }
{
    let count = io::count(got, block);
    take_block(streams, kept, out, &block[..count]);
    count
}

// One read, and what comes of its bytes, those at the start of `block`: how many were taken, none at the end of the input.
fn read_block<R: Read, W: Write>(
    streams: &mut Streams<R, W>,
    kept: &mut Kept,
    out: &mut [u8],
    block: &mut [u8],
) -> usize
    requires { Open (lent kept.old) out.old }
    ensures taken { TakesAll (take result block.new) (lent kept.old) (lent kept.new) out.new }
    ensures few { result ≤ length block.new }
    ensures given { Consumes (R.remaining streams.old.input) (R.remaining streams.new.input) (take result block.new) }
    ensures end { IsNone streams.new.failed → result ≡ 0 → 0 < length block.new → IsAtEnd (R.remaining streams.new.input) }
    ensures written { (input : List ℕ) → Holds input (lent kept.old)
        → Writes streams.old.failed streams.new.failed (W.contents streams.old.output)
        (W.contents streams.new.output) (adds input (take result block.new)) }
{
    let got = streams.read(block);
    take_read(streams, kept, out, block, got)
}

// Whether reading ends behind a read of which so many bytes were taken: at the end of the input, and where a refused layout has ended the run.
fn ends_reading(taken: usize, progress: Progress) -> bool
    ensures { result ≡ ends_reading taken progress }
{
    match progress {
        Progress::Gathering(_) | Progress::Running => taken == 0,
        Progress::Ended => true,
    }
}

// The whole input, read to its end or up to a refused layout, in no more reads than there can be: how many bytes the last one gave.
fn read_all<R: Read, W: Write>(
    streams: &mut Streams<R, W>,
    kept: &mut Kept,
    out: &mut [u8],
    block: &mut [u8],
) -> usize
    requires { Open (lent kept.old) out.old }
    ensures read { ReadsAll (lent kept.old) (lent kept.new) out.new result }
    ensures streamed { Streamed streams.old.failed streams.new.failed (R.remaining streams.old.input)
        (R.remaining streams.new.input) (W.contents streams.old.output) (W.contents streams.new.output)
        (lent kept.old) (lent kept.new) (length block.old) }
{
    let mut taken = 0;
    for _ in 0..u64::MAX {
        taken = read_block(streams, kept, out, block);
        if ends_reading(taken, kept.reader.run.progress) {
            return taken;
        }
    }
    taken
}

// The end of an input that was read, its last read giving so many bytes, and what it answers is written: the bytes at the start of `out`, up to
// the place returned.
fn end<R: Read, W: Write>(
    streams: &mut Streams<R, W>,
    kept: &mut Kept,
    out: &mut [u8],
    taken: usize,
) -> usize
    requires { Read (lent kept.old) out.old taken }
    ensures ends { (input : List ℕ) → Holds input (lent kept.old)
        → Ends input kept.new.table out.old out.new result }
    ensures written { (input : List ℕ) → Holds input (lent kept.old)
        → Writes streams.old.failed streams.new.failed (W.contents streams.old.output)
        (W.contents streams.new.output)
        (closing (point_after input).state (point_after input).begun) }
    ensures input { streams.new.input ≡ streams.old.input }
{
    let last = kept.reader.close(&mut kept.table, out, 0);
    streams.write(&out[..last]);
    last
}

// The whole input, and its end.
fn replay<R: Read, W: Write>(
    streams: &mut Streams<R, W>,
    kept: &mut Kept,
    out: &mut [u8],
    block: &mut [u8],
) -> usize
    requires { Open (lent kept.old) out.old }
    ensures replayed { Replayed (lent kept.old) kept.new.table out.new result }
    ensures answered { WritesAll streams.old.failed streams.new.failed (R.remaining streams.old.input)
        (W.contents streams.old.output) (W.contents streams.new.output) (lent kept.old)
        (length block.old) }
{
    let taken = read_all(streams, kept, out, block);
    end(streams, kept, out, taken)
}

// What its reader has left is replayed, unless a read or a write fails.
fn run<R: Read, W: Write>(streams: &mut Streams<R, W>)
    ensures { IsNone streams.new.failed → (bytes : List ℕ) → R.remaining streams.old.input ≡ Some bytes → length bytes < most_reads
        → Appends (W.contents streams.old.output) (W.contents streams.new.output) (replay_of bytes) }
{
    let mut kept = Kept::new();
    let mut out = io::large_buffer();
    let mut block = io::large_buffer();
    replay(streams, &mut kept, &mut out, &mut block);
}

// Standard input is replayed to standard output, and the first error of a read or a write is the program's.
fn main(rt: HostRuntime) -> Result<()> {
    let mut streams = Streams {
        input: rt.stdin(),
        output: rt.stdout(),
        failed: None,
    };
    run(&mut streams);
    match streams.failed {
        Some(error) => Err(error),
        None => Ok(()),
    }
}
