// The base: a signed number outside, and ZERO more inside.
ghost use Rattle.std.specs.Prelude.{◌≡◌, ◌≤◌, pos, ◌+ℤ◌, ◌-ℤ◌};
ghost use Rattle.tape.specs.Character.{move};
ghost use Rattle.tape.specs.Promise.{whole, Based, Placed, Near};

// What stands for 0 inside: further from 0 than any base; and as a number of places.
const ZERO: i64 = 4294967296;

const PLACES: usize = ZERO as usize;

// What a shift of value 0 moves by.
const WHOLE_MOVE: usize = 256;

pub fn inside(base: i32) -> usize
    ensures { (whole result ≡ base) × Based result }
{
    (base as i64 + ZERO) as usize
}

pub fn outside(base: usize) -> i32
    requires { Based base }
    ensures { result ≡ whole base }
{
    (base as i64 - ZERO) as i32
}

// The place of a character's entry: base plus character, less what stands for 0. Where that is below 0 it wraps to a place that no
// table reaches, so that one test tells inside from outside.
pub fn place(base: usize, c: u8) -> usize
    requires { Based base }
    ensures { Placed base c result }
{
    (base + c as usize) % PLACES
}

// By how much a shift of that value moves the base.
fn moved(value: u8) -> usize
    ensures { (result ≡ move value) × (1 ≤ result) × (result ≤ 256) }
{
    if value == 0 {
        return WHOLE_MOVE;
    }
    value as usize
}

// The base after a shift down.
pub fn down(base: usize, value: u8) -> usize
    requires { Near base }
    ensures { (whole result ≡ whole base -ℤ pos (move value)) × Based result }
{
    base - moved(value)
}

// And up.
pub fn up(base: usize, value: u8) -> usize
    requires { Near base }
    ensures { (whole result ≡ whole base +ℤ pos (move value)) × Based result }
{
    base + moved(value)
}
