// Line ends, counted a block at a time, which the compiler makes wide, and lines by them.
ghost use Rattle.std.specs.Prelude.{◌≡◌, ◌≤◌, length};
ghost use Rattle.compare.specs.Differing.{size};
ghost use Rattle.compare.specs.Promise.{ends};

use crate::front::BLOCK;

// How many lines end in a block, or in less.
fn block_ends(block: &[u8]) -> u8
    requires { length block.now ≤ 240 }
    ensures { result ≡ ends block.now }
{
    let mut count: u8 = 0;
    for &byte in block {
        count += (byte == b'\n') as u8;
    }
    count
}

// How many lines end.
pub fn ends(log: &[u8]) -> usize
    ensures { result ≡ ends log.now }
{
    let whole = log.len() - log.len() % BLOCK;
    let mut count: usize = 0;
    for at in (0..whole).step_by(BLOCK) {
        count += block_ends(&log[at..at + BLOCK]) as usize;
    }
    count + block_ends(&log[whole..]) as usize
}

// How many lines there are: the last may lack its end.
pub fn lines(log: &[u8]) -> usize
    ensures { result ≡ size log.now }
{
    let count = ends(log);
    match log {
        [.., last] if *last != b'\n' => count + 1,
        _ => count,
    }
}
