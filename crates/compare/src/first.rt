// The first line of a log, its first lines, and the first lines of two logs.
ghost use Rattle.std.specs.Prelude.{◌≡◌};
ghost use Rattle.compare.specs.Common.{Behind};
ghost use Rattle.compare.specs.Promise.{line_size, at_end, Runs, Pairs};

use crate::front;

// Whether the first lines are there and the same, and how many bytes each has with its end.
#[derive(Drop)]
pub struct Pair {
    pub alike: bool,
    pub one: usize,
    pub two: usize,
}

// How many bytes the first line has, with its end.
pub fn line_size(log: &[u8]) -> usize
    ensures { result ≡ line_size log.now }
{
    for (i, &byte) in log.iter().enumerate() {
        if byte == b'\n' {
            return i + 1;
        }
    }
    log.len()
}

// Where the bytes after so many lines begin: at the log's end where it has no more.
pub fn behind(log: &[u8], lines: usize) -> usize
    ensures { Behind log.now lines result }
{
    if lines == 0 {
        return 0;
    }
    let mut left = lines;
    for (i, &byte) in log.iter().enumerate() {
        if byte == b'\n' {
            left -= 1;
            if left == 0 {
                return i + 1;
            }
        }
    }
    log.len()
}

// Nothing stands before the end of the first line.
fn at_end(log: &[u8]) -> bool
    ensures { result ≡ at_end log.now }
{
    match log {
        [] => true,
        [first, ..] => *first == b'\n',
    }
}

// How many bytes are the same, up to the end of a line.
fn run(one: &[u8], two: &[u8]) -> usize
    ensures { Runs one.now two.now result }
{
    let size = front::shorter(one, two);
    for i in 0..size {
        if one[i] != two[i] {
            return i;
        }
        if one[i] == b'\n' {
            return i;
        }
    }
    size
}

// The first lines, byte by byte.
pub fn both(one: &[u8], two: &[u8]) -> Pair
    ensures { Pairs one.now two.now result }
{
    let k = run(one, two);
    let x = &one[k..];
    let y = &two[k..];
    Pair {
        alike: at_end(x) && at_end(y) && 0 < one.len() && 0 < two.len(),
        one: k + line_size(x),
        two: k + line_size(y),
    }
}
