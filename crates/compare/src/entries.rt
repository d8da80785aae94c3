// For C and Rust. C passes a slice as a pointer and a count. An exported function can't return a reference, so a part of a log is handed over by its place.
ghost use Rattle.std.specs.Prelude.{◌≡◌};
ghost use Rattle.compare.specs.Differing.{size, compared};
ghost use Rattle.compare.specs.Common.{Front, Behind};
ghost use Rattle.compare.specs.Answer.{TellsCompared, RestsAt, found};

use crate::{ends, first, front};

// The logs by number.
#[derive(Clone, Copy)]
enum Log {
    First = 1,
    Second = 2,
}

// `differences`: the number, 0 or 14; how many numbers went into the room goes into `count`.
#[unsafe(no_mangle)]
pub extern "C" fn compare_differences(
    one: &[u8],
    two: &[u8],
    room: &mut [u64],
    count: &mut usize,
) -> u16
    ensures { TellsCompared (compared one.now two.now room.old) (found result count.new) room.new }
{
    let found = crate::differences(one, two, room);
    *count = found.count;
    found.number
}

// `rest`: the number of the log that it is of, 1 or 2; where in that log it begins goes into `start`. It goes on to the log's end.
#[unsafe(no_mangle)]
pub extern "C" fn compare_rest<'a>(one: &'a [u8], two: &'a [u8], start: &mut usize) -> u16
    ensures { RestsAt one.now two.now result start.new }
{
    let place = crate::meet(one, two);
    let second = place.two < two.len();
    let size = crate::part(one, two, place).len();
    if second {
        *start = two.len() - size;
        return Log::Second as u16;
    }
    *start = one.len() - size;
    Log::First as u16
}

// How many bytes the whole lines have that both logs begin with.
#[unsafe(no_mangle)]
pub extern "C" fn compare_front(one: &[u8], two: &[u8]) -> usize
    ensures { Front one.now two.now result }
{
    front::front(one, two)
}

// How many lines a log has.
#[unsafe(no_mangle)]
pub extern "C" fn compare_lines(log: &[u8]) -> usize
    ensures { result ≡ size log.now }
{
    ends::lines(log)
}

// Where in a log the bytes after so many lines begin: at its end where it has no more.
#[unsafe(no_mangle)]
pub extern "C" fn compare_after(log: &[u8], lines: usize) -> usize
    ensures { Behind log.now lines result }
{
    first::behind(log, lines)
}
