// The front of two logs: the whole lines that both begin with. Bytes are compared a block at a time, which the compiler makes wide.
ghost use Rattle.std.specs.Prelude.{◌≡◌, ◌+◌, ◌≤◌, length, min};
ghost use Rattle.compare.specs.Common.{Shares, Front};
ghost use Rattle.compare.specs.Promise.{SameFrom, Stops, Starts};

// How many bytes a block has: few enough for a count of its line ends to fit a byte.
pub const BLOCK: usize = 240;

// How many bytes the shorter log has.
pub fn shorter(one: &[u8], two: &[u8]) -> usize
    ensures { result ≡ min (length one.now) (length two.now) }
{
    one.len().min(two.len())
}

// The block at a place is the same in both: looked at to its end, so that the compiler makes it wide.
fn same_block(one: &[u8], two: &[u8], at: usize) -> bool
    requires { (at + 240 ≤ length one.now) × (at + 240 ≤ length two.now) }
    ensures { SameFrom one.now two.now at 240 result }
{
    let mut same = true;
    for i in 0..BLOCK {
        same &= one[at + i] == two[at + i];
    }
    same
}

// How many bytes are the same, in whole blocks.
fn blocks(one: &[u8], two: &[u8]) -> usize
    ensures { Shares one.now two.now result }
{
    let size = shorter(one, two);
    let whole = size - size % BLOCK;
    for at in (0..whole).step_by(BLOCK) {
        if !same_block(one, two, at) {
            return at;
        }
    }
    whole
}

// How many bytes are the same.
fn common(one: &[u8], two: &[u8]) -> usize
    ensures { Stops one.now two.now result }
{
    let size = shorter(one, two);
    for i in blocks(one, two)..size {
        if one[i] != two[i] {
            return i;
        }
    }
    size
}

// Where the line begins that the first `at` bytes end in.
fn line_start(log: &[u8], at: usize) -> usize
    requires { at ≤ length log.now }
    ensures { Starts log.now at result }
{
    for i in (0..at).rev() {
        if log[i] == b'\n' {
            return i + 1;
        }
    }
    0
}

// How many bytes the whole lines have that both logs begin with.
pub fn front(one: &[u8], two: &[u8]) -> usize
    ensures { Front one.now two.now result }
{
    line_start(one, common(one, two))
}
