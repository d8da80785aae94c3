// The links of the queues. In a queue 0 stands before the first and after the last. On side NEXT a number's link is what follows it, on
// side PREVIOUS what stands before it.
ghost use Rattle.std.specs.Prelude.{◌≡◌, ◌+◌, ◌<◌, length, get_or};
ghost use Rattle.table.specs.Promise.{Can, Does};
ghost use Rattle.table.specs.Links.{queue_in, set_link, join, MayLink, MayJoin, CanLink, DoesLink, DoesLinks, GivesLink, MayInsert, Inserts};
ghost use Rattle.table.specs.Links.{MayAdd, add, MayRemove, MayRemoveBehind, remove};

use crate::indices;
use crate::queue::Queue;

// The two sides, as numbers, since a link's word is found by adding one.
pub const NEXT: usize = 0;

pub const PREVIOUS: usize = 1;

// The link of x.
pub fn link(t: &[u16], queue: Queue, side: usize, x: u16) -> u16
    requires { CanLink t.now (MayLink (queue_in queue) side x) }
    ensures { GivesLink t.now (MayLink (queue_in queue) side x) (λ g. g (queue_in queue) side x) result }
{
    t[indices::of_link(t, queue, side, x)]
}

// The link of x becomes y.
fn set_link(t: &mut [u16], queue: Queue, side: usize, x: u16, y: u16)
    requires { CanLink t.old (MayLink (queue_in queue) side x) }
    ensures { DoesLink t.old t.new (MayLink (queue_in queue) side x) (set_link (queue_in queue) side x y) }
{
    let i = indices::of_link(t, queue, side, x);
    t[i] = y;
}

// y follows x, and x stands before y.
fn join(t: &mut [u16], queue: Queue, x: u16, y: u16)
    requires { CanLink t.old (MayJoin (queue_in queue) x y) }
    ensures { DoesLink t.old t.new (MayJoin (queue_in queue) x y) (join (queue_in queue) x y) }
{
    set_link(t, queue, NEXT, x, y);
    set_link(t, queue, PREVIOUS, y, x);
}

// The word at index i.
fn word_at(t: &[u16], i: usize) -> u16
    requires { i < length t.now }
    ensures { result ≡ get_or t.now i 0 }
{
    t[i]
}

// Both links that are found at i.
fn set_links(t: &mut [u16], i: usize, next: u16, previous: u16)
    requires { i + 1 < length t.old }
    ensures { DoesLinks t.old t.new i next previous }
{
    t[i] = next;
    t[i + PREVIOUS] = previous;
}

// x goes into the queue behind `at`, where `next` follows; behind 0: it goes first, and before 0: last.
pub fn insert(t: &mut [u16], queue: Queue, at: u16, next: u16, x: u16)
    requires { Can t.old (MayInsert (queue_in queue) at next x) }
    ensures { Inserts t.old t.new (queue_in queue) at next x }
{
    let i = indices::of_member(t, queue, x);
    set_link(t, queue, NEXT, at, x);
    set_links(t, i, next, at);
    set_link(t, queue, PREVIOUS, next, x);
}

// x goes last into the queue.
pub fn append(t: &mut [u16], queue: Queue, x: u16)
    requires { Can t.old (MayAdd (queue_in queue) x) }
    ensures { Does t.old t.new (MayAdd (queue_in queue) x) (add (queue_in queue) x) }
{
    let last = link(t, queue, PREVIOUS, 0);
    insert(t, queue, last, 0, x);
}

// x, before which `previous` stands, leaves the queue; before the first stands 0.
pub fn remove_behind(t: &mut [u16], queue: Queue, previous: u16, x: u16)
    requires { Can t.old (MayRemoveBehind (queue_in queue) previous x) }
    ensures { Does t.old t.new (MayRemoveBehind (queue_in queue) previous x) (remove (queue_in queue) x) }
{
    let i = indices::of_member(t, queue, x);
    let next = word_at(t, i);
    join(t, queue, previous, next);
    set_links(t, i, 0, 0);
}

// x leaves the queue, wherever it stands in it.
pub fn remove(t: &mut [u16], queue: Queue, x: u16)
    requires { Can t.old (MayRemove (queue_in queue) x) }
    ensures { Does t.old t.new (MayRemove (queue_in queue) x) (remove (queue_in queue) x) }
{
    let i = indices::of_member(t, queue, x);
    let previous = word_at(t, i + PREVIOUS);
    remove_behind(t, queue, previous, x);
}
