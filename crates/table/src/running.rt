// The running queue.
ghost use Rattle.machine.specs.Machine.{current};
ghost use Rattle.machine.specs.Moves.{bar, enter_running, leave_running, requeue};
ghost use Rattle.table.specs.Promise.{Can, Does, Gives, Goes};
ghost use Rattle.table.specs.Fits.{Any, IsProcess, MayWalk, MayEnter, MayLeave, MayPause, MayRequeue};
ghost use Rattle.table.specs.Links.{position, moving_on, EntersBehind, KeepsPlace};

use crate::queue::RUNNING;
use crate::{links, words};
use machine::{header, process, reason};

// Where one goes into the running queue: behind which process and before which, 0 for none, and how many records are passed on the way.
#[derive(Clone, Copy)]
struct Gap {
    at: u16,
    follower: u16,
    passed: u16,
}

// The first of the running queue, 0 for none.
pub fn current(t: &[u16]) -> u16
    requires { Can t.now Any }
    ensures { Gives t.now Any current result }
{
    t[header::FIRST]
}

// The lowest priority behind which p goes: its own, or, woken by interrupt, one more, so that it goes in front of its equals.
fn bar(t: &[u16], reason: u16, p: u16) -> usize
    requires { Can t.now (IsProcess p) }
    ensures { Gives t.now (IsProcess p) (bar reason p) result }
{
    let priority = words::process_word(t, p, process::PRIORITY) as usize;
    if reason == reason::INTERRUPT {
        return priority + 1;
    }
    priority
}

// Behind all in the running queue whose priority is `bar` or higher.
fn behind(t: &[u16], bar: usize) -> Gap
    requires { Can t.now MayWalk }
    ensures { EntersBehind t.now bar result.at result.follower result.passed }
{
    let mut at = 0;
    let mut follower = links::link(t, RUNNING, links::NEXT, 0);
    let mut passed: u16 = 0;
    while follower != 0 {
        if (words::process_word(t, follower, process::PRIORITY) as usize) < bar {
            return Gap {
                at,
                follower,
                passed,
            };
        }
        at = follower;
        follower = links::link(t, RUNNING, links::NEXT, at);
        passed += 1;
    }
    Gap {
        at,
        follower: 0,
        passed,
    }
}

// Process p goes into the running queue, for that reason: behind all of equal or higher priority, or behind those of higher only. Its position there, from 1:
// it has passed one record fewer.
pub fn enter_running(t: &mut [u16], reason: u16, p: u16) -> u16
    requires { Can t.old (MayEnter p) }
    ensures { Goes t.old t.new (MayEnter p) (enter_running reason p) (position reason p) result }
{
    let gap = behind(t, bar(t, reason, p));
    links::insert(t, RUNNING, gap.at, gap.follower, p);
    gap.passed + 1
}

// Process p leaves the running queue.
pub fn leave_running(t: &mut [u16], p: u16)
    requires { Can t.old (MayLeave p) }
    ensures { Does t.old t.new (MayLeave p) (leave_running p) }
{
    links::remove(t, RUNNING, p);
}

// Process p, the first of the running queue, leaves it.
pub fn leave_first(t: &mut [u16], p: u16)
    requires { Can t.old (MayPause p) }
    ensures { Does t.old t.new (MayPause p) (leave_running p) }
{
    links::remove_behind(t, RUNNING, 0, p);
}

// Whether p, in the running queue, is its first, with nobody of its priority behind it: then it would enter where it left.
fn stays(t: &[u16], p: u16) -> bool
    requires { Can t.now (MayLeave p) }
    ensures { KeepsPlace t.now p result }
{
    if current(t) != p {
        return false;
    }
    let follower = links::link(t, RUNNING, links::NEXT, p);
    if follower == 0 {
        return true;
    }
    words::process_word(t, follower, process::PRIORITY)
        < words::process_word(t, p, process::PRIORITY)
}

// Process p, if it is one, leaves the running queue and enters again, behind its equals. How many records it passed.
pub fn requeue(t: &mut [u16], p: u16) -> u16
    requires { Can t.old (MayRequeue p) }
    ensures { Goes t.old t.new (MayRequeue p) (requeue p) (moving_on p) result }
{
    if p == 0 {
        return 0;
    }
    if stays(t, p) {
        return 0;
    }
    leave_running(t, p);
    enter_running(t, reason::NONE, p) - 1
}
