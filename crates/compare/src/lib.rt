// Two logs side by side: the numbers of the lines at which they differ, and the rest of the one that runs on. No machine is known here; the lines aren't read.
#![tactic(auto)]

mod ends;
mod entries;
mod first;
mod front;
mod steps;

ghost use Rattle.std.specs.Prelude.{◌≤◌, ◌<◌, length};
ghost use Rattle.compare.specs.Differing.{compared};
ghost use Rattle.compare.specs.Answer.{TellsCompared, Rests};
ghost use Rattle.compare.specs.Promise.{PutsNumber, StoresDifferences, Meets};

use steps::Place;

// The numbers of an answer.
const DONE: u16 = 0;

const ROOM_TOO_SHORT: u16 = 14;

// The number of an answer, and how many numbers of lines there are: so docs/MONITOR.md, 17.4 has `differences` answer, and its promise
// (`TellsCompared`) speaks of them.
#[derive(Drop)]
pub struct Found {
    pub number: u16,
    pub count: usize,
}

// The number of a pair of lines that aren't alike goes to its place, where that is below `full`; the next place.
fn put(room: &mut [u64], at: usize, full: usize, number: usize, alike: bool) -> usize
    requires { (full ≤ length room.old) × (at < number) }
    ensures { PutsNumber room.old at full number alike room.new result }
{
    if alike {
        return at;
    }
    if at < full {
        room[at] = number as u64;
    }
    at + 1
}

// One pass over both logs: how many numbers there are. The first `full` of them are stored.
fn pass(one: &[u8], two: &[u8], room: &mut [u64], full: usize) -> usize
    requires { full ≤ length room.old }
    ensures { StoresDifferences one.now two.now room.old full room.new result }
{
    let mut place = Place::start(one);
    let mut number: usize = 0;
    let mut count: usize = 0;
    while place.one < one.len() || place.two < two.len() {
        let passed = place.step(one, two);
        number += passed.lines;
        count = put(room, count, full, number, passed.alike);
    }
    count
}

// The numbers of the lines at which the logs differ, each once, rising, go into the room; it stays as it was where it is too short.
pub fn differences(one: &[u8], two: &[u8], room: &mut [u64]) -> Found
    ensures { TellsCompared (compared one.now two.now room.old) result room.new }
{
    let count = pass(one, two, room, 0);
    if count == 0 {
        return Found {
            number: DONE,
            count: 0,
        };
    }
    if room.len() < count {
        return Found {
            number: ROOM_TOO_SHORT,
            count: 0,
        };
    }
    pass(one, two, room, count);
    Found {
        number: DONE,
        count,
    }
}

// Behind the lines that both logs have.
fn meet(one: &[u8], two: &[u8]) -> Place
    ensures { Meets one.now two.now result }
{
    let mut place = Place::start(one);
    while place.one < one.len() && place.two < two.len() {
        place.step(one, two);
    }
    place
}

// The part of the log that goes on behind such a place.
fn part<'a>(one: &'a [u8], two: &'a [u8], place: Place) -> &'a [u8]
    requires { Meets one.now two.now place }
    ensures { Rests one.now one.entry.ref_ptr two.now two.entry.ref_ptr result.now result.ref_ptr }
{
    if place.two < two.len() {
        return &two[place.two..];
    }
    &one[place.one..]
}

// The rest of the log that runs on, behind as many lines as the other has, is a part of its bytes; where neither does, the empty end of the first's.
pub fn rest<'a>(one: &'a [u8], two: &'a [u8]) -> &'a [u8]
    ensures { Rests one.now one.entry.ref_ptr two.now two.entry.ref_ptr result.now result.ref_ptr }
{
    part(one, two, meet(one, two))
}
