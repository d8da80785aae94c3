// The event queues.
ghost use Rattle.machine.specs.Queue.{head};
ghost use Rattle.machine.specs.Moves.{append, unlink};
ghost use Rattle.table.specs.Promise.{Can, Does, Gives};
ghost use Rattle.table.specs.Fits.{IsProcess, MayAppend, MayUnlink, MayUnlinkFirst};

use crate::queue::Queue;
use crate::{indices, links};
use machine::process;

// The first of p's event queue, 0 for none.
pub fn first_event(t: &[u16], p: u16) -> u16
    requires { Can t.now (IsProcess p) }
    ensures { Gives t.now (IsProcess p) (λ m. head (m.events p)) result }
{
    t[indices::of_process(p, process::FIRST)]
}

// Buffer b goes last in p's event queue.
pub fn append(t: &mut [u16], p: u16, b: u16)
    requires { Can t.old (MayAppend p b) }
    ensures { Does t.old t.new (MayAppend p b) (append p b) }
{
    links::append(t, Queue::Events(p), b);
}

// Buffer b leaves p's event queue, wherever it stands in it.
pub fn unlink(t: &mut [u16], p: u16, b: u16)
    requires { Can t.old (MayUnlink p b) }
    ensures { Does t.old t.new (MayUnlink p b) (unlink p b) }
{
    links::remove(t, Queue::Events(p), b);
}

// Buffer b, the first of p's event queue, leaves it.
pub fn unlink_first(t: &mut [u16], p: u16, b: u16)
    requires { Can t.old (MayUnlinkFirst p b) }
    ensures { Does t.old t.new (MayUnlinkFirst p b) (unlink p b) }
{
    links::remove_behind(t, Queue::Events(p), 0, b);
}
