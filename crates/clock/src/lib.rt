// Call 09: the tick.
#![tactic(auto)]

ghost use Rattle.machine.specs.Exchange.{said};
ghost use Rattle.machine.specs.Legal.{Legal};
ghost use Rattle.machine.specs.Request.{Tick};
ghost use Rattle.machine.specs.Step.{grow, grown};
ghost use Rattle.table.specs.Promise.{Can, Does};
ghost use Rattle.table.specs.Fits.{Any, IsBuffer};
ghost use Rattle.answers.specs.Promise.{walk_of, ServesWalked};
ghost use Rattle.clock.specs.Clock.{MayTick, TicksOne, TicksAll};

use answers::{Walk, Walked};
use machine::exchange::ZEROS;
use machine::{buffer, process, reason, standing};
use table::{moves, running, words};

// The delay of process p falls by 1, if it is above 0; if it has just fallen to 0, p wakes. Its position in the running queue, 0 if it doesn't wake.
fn tick_one(t: &mut [u16], p: u16) -> u16
    requires { Can t.old (MayTick p) }
    ensures { TicksOne t.old t.new p result }
{
    let delay = words::process_word(t, p, process::DELAY);
    if delay == 0 {
        return 0;
    }
    words::set_process_word(t, p, process::DELAY, delay - 1);
    if delay > 1 {
        return 0;
    }
    moves::wake(t, reason::DELAY, p)
}

// A tick for every process by rising number: the walk of those that woke. A wake looks at no delay of another process, and so it need not wait until all
// delays have fallen.
fn tick_all(t: &mut [u16]) -> Walk
    requires { Can t.old Legal }
    ensures { TicksAll t.old t.new (walk_of result) }
{
    let n = words::processes(t);
    let mut walk = answers::nowhere();
    for i in 0..n {
        walk = answers::walk_to(walk, tick_one(t, i + 1));
    }
    walk
}

// Buffer b, unless it is free, grows older by a tick, up to 65,535.
fn grow(t: &mut [u16], b: u16)
    requires { Can t.old (IsBuffer b) }
    ensures { Does t.old t.new (IsBuffer b) (grow b) }
{
    if words::buffer_word(t, b, buffer::STANDING) == standing::FREE {
        return;
    }
    let age = words::buffer_word(t, b, buffer::AGE);
    if age == buffer::MOST_AGE {
        return;
    }
    words::set_age(t, b, age + 1);
}

// Each buffer grows older.
fn grow_all(t: &mut [u16])
    requires { Can t.old Any }
    ensures { Does t.old t.new Any grown }
{
    let n = words::buffers(t);
    for i in 0..n {
        grow(t, i + 1);
    }
}

// Call 09: after the delays and wakes the process that was current goes behind its equals, which is no wake and is told apart; and the ages grow.
pub fn tick(t: &mut [u16]) -> Walked
    requires { Can t.old Legal }
    ensures { ServesWalked t.old t.new Tick (said result.answer) (walk_of result.walk) }
{
    let current = running::current(t);
    let woken = tick_all(t);
    let moved = running::requeue(t, current);
    grow_all(t);
    Walked {
        answer: answers::done(t, woken.entries, 0, ZEROS),
        walk: Walk { moved, ..woken },
    }
}
