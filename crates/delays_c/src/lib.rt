// The second clock as an archive for C and Rust: each function of the crate delays by the name that it has there. C passes a slice as a pointer and a count.
#![tactic(auto)]

ghost use Rattle.std.specs.Prelude.{◌≡◌};
ghost use Rattle.delays.specs.Words.{shown, Makes, Waits, Leaves, Ticks, Remains};

use delays::{Delay, Ticked};

// An empty queue for so many processes: 0; 11 if they are not 1 to 32, 12 if the words are too few.
#[unsafe(no_mangle)]
pub extern "C" fn delays_make(t: &mut [u16], processes: u16) -> u16
    ensures { Makes t.old t.new processes result }
{
    delays::delays_make(t, processes)
}

// Process p waits, with that delay; 0 is no limit. One that waited already waits anew.
#[unsafe(no_mangle)]
pub extern "C" fn delays_wait(t: &mut [u16], p: u16, delay: u16) -> u16
    ensures { Waits t.old t.new p delay result }
{
    delays::delays_wait(t, p, delay)
}

// Process p is woken, stopped or cleaned: it waits no more.
#[unsafe(no_mangle)]
pub extern "C" fn delays_leave(t: &mut [u16], p: u16) -> u16
    ensures { Leaves t.old t.new p result }
{
    delays::delays_leave(t, p)
}

// The clock ticks: who is woken goes into the room, by rising number. Where nobody is woken only the first is looked at.
#[unsafe(no_mangle)]
pub extern "C" fn delays_tick(t: &mut [u16], room: &mut [u16]) -> Ticked
    ensures { Ticks t.old t.new room.old room.new result }
{
    delays::delays_tick(t, room)
}

// The delay left for process p: 0 without limit, or if it is not waiting.
#[unsafe(no_mangle)]
pub extern "C" fn delays_left(t: &[u16], p: u16) -> Delay
    ensures { Remains t.now p result }
{
    delays::delays_left(t, p)
}

// Whether the words show a queue: a list by time left that ends. None of the calls above looks at all of it.
#[unsafe(no_mangle)]
pub extern "C" fn delays_shown(t: &[u16]) -> bool
    ensures { result ≡ shown t.now }
{
    delays::delays_shown(t)
}
