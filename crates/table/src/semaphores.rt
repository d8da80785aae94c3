// The semaphores: their counters, and the queues of those that wait for them.
ghost use Rattle.machine.specs.Queue.{head};
ghost use Rattle.machine.specs.Machine.{semaphores, set_semaphore};
ghost use Rattle.machine.specs.Moves.{off_semaphore};
ghost use Rattle.table.specs.Promise.{Can, Does, Gives};
ghost use Rattle.table.specs.Fits.{Any, IsSemaphore, MayName, MayLower, MayRise, MayRiseFirst, MayCountOut, MayOffSemaphore};
ghost use Rattle.table.specs.Links.{put_counter, waits_last, counted_out, leaves_semaphore};

use crate::queue::Queue;
use crate::{indices, links, words};
use machine::{header, process, semaphore};

// The number of semaphores.
pub fn semaphores(t: &[u16]) -> u16
    requires { Can t.now Any }
    ensures { Gives t.now Any semaphores result }
{
    t[header::SEMAPHORES]
}

// The counter's word of semaphore s.
pub fn counter_word(t: &[u16], s: u16) -> u16
    requires { Can t.now (IsSemaphore s) }
    ensures { Gives t.now (IsSemaphore s) (λ m. m.counter s) result }
{
    t[indices::of_semaphore(t, s, semaphore::COUNTER)]
}

// The longest waiter of semaphore s, 0 for none.
pub fn first_waiter(t: &[u16], s: u16) -> u16
    requires { Can t.now (IsSemaphore s) }
    ensures { Gives t.now (IsSemaphore s) (λ m. head (m.waiters s)) result }
{
    t[indices::of_semaphore(t, s, semaphore::FIRST)]
}

// The counter's word of semaphore s becomes x.
pub fn set_counter(t: &mut [u16], s: u16, x: u16)
    requires { Can t.old (IsSemaphore s) }
    ensures { Does t.old t.new (IsSemaphore s) (put_counter s x) }
{
    let i = indices::of_semaphore(t, s, semaphore::COUNTER);
    t[i] = x;
}

// Process p, which is in no queue of processes, names semaphore s, or none.
pub fn set_named(t: &mut [u16], p: u16, s: u16)
    requires { Can t.old (MayName p s) }
    ensures { Does t.old t.new (MayName p s) (set_semaphore p s) }
{
    let i = indices::of_process(p, process::SEMAPHORE);
    t[i] = s;
}

// Process p, which names semaphore s, goes last in its queue.
pub fn wait_last(t: &mut [u16], s: u16, p: u16)
    requires { Can t.old (MayLower s p) }
    ensures { Does t.old t.new (MayLower s p) (waits_last s p) }
{
    links::append(t, Queue::Processes(s), p);
}

// Process p, out of the queue of semaphore s, names it no more, and one is added to the counter.
fn count_out(t: &mut [u16], s: u16, p: u16)
    requires { Can t.old (MayCountOut s p) }
    ensures { Does t.old t.new (MayCountOut s p) (counted_out s p) }
{
    let raised = counter::raise(counter_word(t, s));
    set_counter(t, s, raised);
    set_named(t, p, 0);
}

// Process p leaves the queue of semaphore s and names it no more, and one is added to the counter.
fn leave_semaphore(t: &mut [u16], s: u16, p: u16)
    requires { Can t.old (MayRise s p) }
    ensures { Does t.old t.new (MayRise s p) (leaves_semaphore s p) }
{
    links::remove(t, Queue::Processes(s), p);
    count_out(t, s, p);
}

// The same of the longest waiter of semaphore s.
pub fn leave_first(t: &mut [u16], s: u16, p: u16)
    requires { Can t.old (MayRiseFirst s p) }
    ensures { Does t.old t.new (MayRiseFirst s p) (leaves_semaphore s p) }
{
    links::remove_behind(t, Queue::Processes(s), 0, p);
    count_out(t, s, p);
}

// Process p leaves the queue of the semaphore that it waits for, if it does, which adds one to the counter.
pub fn off_semaphore(t: &mut [u16], p: u16)
    requires { Can t.old (MayOffSemaphore p) }
    ensures { Does t.old t.new (MayOffSemaphore p) (off_semaphore p) }
{
    let s = words::process_word(t, p, process::SEMAPHORE);
    if s == 0 {
        return;
    }
    leave_semaphore(t, s, p);
}
