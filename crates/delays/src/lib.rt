// A second clock, as a library for C and Rust: the waiting processes in a list by time left, each with its difference to
// the one before, equal times by rising process number, in lent words of its own. Word 0 is the first of the list, word 1
// the number of processes P; of process p word 2p is the one behind it, 0 for none, and word 2p + 1 the difference. A
// process without limit is not in the list. Any words at all may be lent; C passes them as a pointer and a count.
#![tactic(auto)]

mod check;
mod list;
mod refusal;
mod words;

ghost use Rattle.std.specs.Prelude.{◌≡◌, ◌≤◌, length, OnOk};
ghost use Rattle.machine.specs.Queue.{Range};
ghost use Rattle.delays.specs.Words.{refusal, tick_refusal, shown, Makes, Waits, Leaves, Ticks, Remains, P_of, Sized, number_of, ticked_of, delay_of};

use refusal::{DONE, Refusal, told};

// 0, or the number of a refusal, and how many were woken.
#[repr(C)]
#[derive(Drop)]
pub struct Ticked {
    pub number: u16,
    pub count: usize,
}

// 0, or the number of a refusal, and the delay left.
#[repr(C)]
#[derive(Drop)]
pub struct Delay {
    pub number: u16,
    pub time: u16,
}

fn make(t: &mut [u16], processes: u16) -> Result<(), Refusal>
    ensures { Makes t.old t.new processes (number_of result) }
{
    if processes == 0 || processes > words::MOST {
        return Err(Refusal::WrongNumber);
    }
    if t.len() < words::words_for(processes) {
        return Err(Refusal::WordsTooFew);
    }
    t[0] = 0;
    t[words::PROCESSES] = processes;
    Ok(())
}

// An empty queue for so many processes: 0; 11 if they are not 1 to 32, 12 if the words are too few.
#[unsafe(no_mangle)]
pub extern "C" fn delays_make(t: &mut [u16], processes: u16) -> u16
    ensures { Makes t.old t.new processes result }
{
    told(make(t, processes))
}

// The words are a delay queue, and p is one of its processes.
fn admitted(t: &[u16], p: u16) -> Result<(), Refusal>
    ensures number { number_of result ≡ refusal t.now p }
    ensures passes { OnOk result (Sized t.now × Range (P_of t.now) p) }
{
    if !words::sized(t) {
        return Err(Refusal::NoQueue);
    }
    if p == 0 || p > t[words::PROCESSES] {
        return Err(Refusal::NoSuchProcess);
    }
    Ok(())
}

fn wait(t: &mut [u16], p: u16, delay: u16) -> Result<(), Refusal>
    ensures { Waits t.old t.new p delay (number_of result) }
{
    admitted(t, p)?;
    list::take_out(t, p);
    if delay != 0 {
        list::put_in(t, p, delay);
    }
    Ok(())
}

// Process p waits, with that delay; 0 is no limit. One that waited already waits anew.
#[unsafe(no_mangle)]
pub extern "C" fn delays_wait(t: &mut [u16], p: u16, delay: u16) -> u16
    ensures { Waits t.old t.new p delay result }
{
    told(wait(t, p, delay))
}

fn leave(t: &mut [u16], p: u16) -> Result<(), Refusal>
    ensures { Leaves t.old t.new p (number_of result) }
{
    admitted(t, p)?;
    list::take_out(t, p);
    Ok(())
}

// Process p is woken, stopped or cleaned: it waits no more.
#[unsafe(no_mangle)]
pub extern "C" fn delays_leave(t: &mut [u16], p: u16) -> u16
    ensures { Leaves t.old t.new p result }
{
    told(leave(t, p))
}

// The words are a delay queue, and the room has a word for each of its processes.
fn roomy(t: &[u16], room: usize) -> Result<(), Refusal>
    ensures number { number_of result ≡ tick_refusal t.now room }
    ensures passes { OnOk result (Sized t.now × (P_of t.now ≤ room)) }
{
    if !words::sized(t) {
        return Err(Refusal::NoQueue);
    }
    if room < words::processes(t) as usize {
        return Err(Refusal::RoomTooShort);
    }
    Ok(())
}

fn tick(t: &mut [u16], room: &mut [u16]) -> Result<usize, Refusal>
    ensures { Ticks t.old t.new room.old room.new (ticked_of result) }
{
    roomy(t, room.len())?;
    let first = words::next(t, 0);
    list::earlier(t, first, 1);
    let due = list::gather(t, room, first);
    words::put_next(t, 0, due.rest);
    Ok(due.count)
}

// The clock ticks: who is woken goes into the room, by rising number. Where nobody is woken only the first is looked at.
#[unsafe(no_mangle)]
pub extern "C" fn delays_tick(t: &mut [u16], room: &mut [u16]) -> Ticked
    ensures { Ticks t.old t.new room.old room.new result }
{
    match tick(t, room) {
        Ok(count) => Ticked {
            number: DONE,
            count,
        },
        Err(refusal) => Ticked {
            number: refusal as u16,
            count: 0,
        },
    }
}

fn left(t: &[u16], p: u16) -> Result<u16, Refusal>
    ensures { Remains t.now p (delay_of result) }
{
    admitted(t, p)?;
    match list::seek(t, p) {
        Some(spot) => Ok(words::sum(spot.time, words::difference(t, p))),
        None => Ok(0),
    }
}

// The delay left for process p: 0 without limit, or if it is not waiting.
#[unsafe(no_mangle)]
pub extern "C" fn delays_left(t: &[u16], p: u16) -> Delay
    ensures { Remains t.now p result }
{
    match left(t, p) {
        Ok(time) => Delay { number: DONE, time },
        Err(refusal) => Delay {
            number: refusal as u16,
            time: 0,
        },
    }
}

// Whether the words show a queue: a list by time left that ends. None of the calls above looks at all of it.
#[unsafe(no_mangle)]
pub extern "C" fn delays_shown(t: &[u16]) -> bool
    ensures { result ≡ shown t.now }
{
    words::sized(t) && check::ordered(t)
}
