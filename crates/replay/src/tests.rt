// The run on a reader and a writer of its own, which fail where they are told to.
use super::run;
use super::streams::Streams;
use std::io::{Error, ErrorKind, Read, Result, Write};
use std::test::Fail;

// What the file stdin has, whose lines have 27 bytes each, and what the file stdout has for it.
const LINES: &str = "00000500014100000000000000\n\
    00000300004200000000000000\n\
    06000100000000000000000000\n\
    06000200000000000000000000\n\
    01000200001111222233334444\n\
    02000100000000000000000000\n\
    03000000000000000000000000\n\
    04000100000000000A00000000\n\
    0B000100000000000000000000\n";

const ANSWERS: &str = "000000000000010000000000000000\n\
    000000000000010000000000000000\n\
    000000000100010000000000000000\n\
    000000000000020000000000000000\n\
    000001000100021111222233334444\n\
    000000000000010000000000000000\n\
    000001000000010000000000000000\n\
    00010001000200030000\n";

// The bytes of an answer's line.
const ANSWER: usize = 31;

// Gives no more bytes than `most` at once, and fails once so many reads were made.
#[derive(Drop)]
struct Source<'a> {
    rest: &'a [u8],
    most: usize,
    reads: usize,
}

impl Read for Source<'_> {
    fn read(&mut self, block: &mut [u8]) -> Result<usize> {
        if self.reads == 0 {
            return Err(Error::from(ErrorKind::TimedOut));
        }
        self.reads -= 1;
        let count = self.rest.len().min(self.most).min(block.len());
        let (given, rest) = self.rest.split_at(count);
        block[..count].copy_from_slice(given);
        self.rest = rest;
        Ok(count)
    }
}

// Keeps what is written, but for the bytes of the second write and the third, which fail.
#[derive(Drop)]
struct Sink {
    kept: Vec<u8>,
    writes: usize,
}

impl Write for Sink {
    fn write(&mut self, bytes: &[u8]) -> Result<usize> {
        let before = self.writes;
        self.writes = before.saturating_add(1);
        if before == 1 {
            return Err(Error::from(ErrorKind::BrokenPipe));
        }
        if before == 2 {
            return Err(Error::from(ErrorKind::TimedOut));
        }
        self.kept.extend_from_slice(bytes)?;
        Ok(bytes.len())
    }

    fn flush(&mut self) -> Result<()> {
        Ok(())
    }
}

#[test]
fn bytes_in_pieces_are_answered_alike(rt: HostRuntime) -> std::result::Result<(), Fail> {
    for most in [1, 26, 28, 1000] {
        let mut streams = Streams {
            input: Source {
                rest: LINES.as_bytes(),
                most,
                reads: 1000,
            },
            output: Vec::new(rt.alloc()),
            failed: None,
        };
        run(&mut streams);
        assert!(rt; streams.failed.is_none());
        assert_eq!(rt;
            streams.output.as_slice(),
            ANSWERS.as_bytes(),
            "{most} bytes at once"
        );
    }
    Ok(())
}

#[test]
fn what_came_before_a_failed_read_is_answered(rt: HostRuntime) -> std::result::Result<(), Fail> {
    let mut streams = Streams {
        input: Source {
            rest: LINES.as_bytes(),
            most: 27,
            reads: 3,
        },
        output: Vec::new(rt.alloc()),
        failed: None,
    };
    run(&mut streams);
    assert!(rt;
        streams
            .failed
            .is_some_and(|error| error.kind() == ErrorKind::TimedOut)
    );
    assert_eq!(rt; streams.output.as_slice(), &ANSWERS.as_bytes()[..ANSWER]);
    Ok(())
}

#[test]
fn the_first_failed_write_is_told_and_the_run_goes_on(
    rt: HostRuntime,
) -> std::result::Result<(), Fail> {
    let mut streams = Streams {
        input: Source {
            rest: LINES.as_bytes(),
            most: 27,
            reads: 1000,
        },
        output: Sink {
            kept: Vec::new(rt.alloc()),
            writes: 0,
        },
        failed: None,
    };
    run(&mut streams);
    assert!(rt;
        streams
            .failed
            .is_some_and(|error| error.kind() == ErrorKind::BrokenPipe)
    );
    let kept = streams.output.kept.as_slice();
    let (first, rest) = kept.split_at(ANSWER.min(kept.len()));
    let (answer, others) = ANSWERS.as_bytes().split_at(ANSWER);
    assert_eq!(rt; first, answer);
    assert_eq!(rt; rest, &others[2 * ANSWER..]);
    Ok(())
}
