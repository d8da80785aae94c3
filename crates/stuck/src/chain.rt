// The chain of waits from a process: two functions that call each other, from a process to its buffer and from the buffer to a process. Who comes up is
// listed aside, since no word of the room may change before it is known to be enough. Assumes a sound table.
ghost use Rattle.std.specs.Prelude.{◌≡◌, ◌+◌, ◌-◌, ◌≤◌, ◌<◌, length};
ghost use Rattle.std.proofs.lemmas.List.Edits.{sets};
ghost use Rattle.machine.specs.Records.{buffer_receiver};
ghost use Rattle.machine.specs.Queue.{Range};
ghost use Rattle.machine.specs.Sound.{P_of, B_of, buffer_at, Sound};
ghost use Rattle.stuck.specs.Waiting.{of_table};
ghost use Rattle.stuck.specs.Chain.{follow, chain, along, places, MayVisit, down, Lists};

use crate::waits::{PLACES, awaited, onward, receiver, state};
use machine::state;

// How many processes were not visited, and whether one came up a second time.
#[derive(Drop)]
pub struct Chain {
    pub left: u16,
    pub ring: bool,
}

// Added to the number of processes not visited where one came up a second time: a step tells a chain by one number.
const RING: usize = 64;

// Process p has come up: if it waits for an answer, its buffer is next. `left` processes are not visited yet, and p is listed at that place. Where all are
// visited, so is p.
#[cycle(buffer_step_process_step)]
fn process_step(
    t: &[u16],
    visited: &mut [u16; PLACES],
    listed: &mut [u16; PLACES],
    p: u16,
    left: usize,
) -> usize
    requires { Sound t.now × (Range (P_of t.now) p × MayVisit (P_of t.now) visited.old listed.old left) }
    ensures { Lists (of_table t.now) (follow (of_table t.now) visited.old left p)
        listed.old listed.new left p result }
{
    if visited[p as usize] == 1 {
        return left + RING;
    }
    visited[p as usize] = 1;
    listed[left] = p;
    if state(t, p) != state::WAITS_ANSWER {
        return left - 1;
    }
    buffer_step(t, visited, listed, awaited(t, p), left - 1)
}

// From buffer b to the process that has it as receiver.
#[cycle(buffer_step_process_step)]
fn buffer_step(
    t: &[u16],
    visited: &mut [u16; PLACES],
    listed: &mut [u16; PLACES],
    b: u16,
    left: usize,
) -> usize
    requires { Sound t.now × (Range (B_of t.now) b ×
        (Range (P_of t.now) (buffer_at t.now b buffer_receiver) × MayVisit (P_of t.now) visited.old listed.old left)) }
    ensures { Lists (of_table t.now) (follow (of_table t.now) visited.old left (buffer_at t.now b buffer_receiver))
        listed.old listed.new left (buffer_at t.now b buffer_receiver) result }
{
    process_step(t, visited, listed, receiver(t, b), left)
}

// The chain from p, of `all` processes: who comes up is listed, the first at place `all` and each other one place lower.
pub fn follow(t: &[u16], listed: &mut [u16; PLACES], p: u16, all: u16) -> Chain
    requires { Sound t.now × (Range (P_of t.now) p × ((all ≡ P_of t.now) × (length listed.old ≡ places))) }
    ensures { (result ≡ chain (of_table t.now) all p) ×
        (down listed.new (all - result.left) all ≡ along (of_table t.now) (all - result.left) p) }
{
    let mut visited: [u16; PLACES] = [0; PLACES];
    let end = process_step(t, &mut visited, listed, p, all as usize);
    Chain {
        left: (end % RING) as u16,
        ring: end >= RING,
    }
}

// The n processes listed from place `all` down go into the room.
pub fn copy(listed: &[u16; PLACES], room: &mut [u16], all: u16, n: u16)
    requires { (n ≤ all) × ((all < places) × (n ≤ length room.old)) }
    ensures { room.new ≡ sets room.old 0 (down listed.now n all) }
{
    for i in 0..n {
        room[i as usize] = listed[(all - i) as usize];
    }
}

// The first n processes of the chain from a go into the room, from `at` on.
pub fn write(t: &[u16], room: &mut [u16], at: usize, a: u16, n: u16)
    requires { Sound t.now × (Range (P_of t.now) a × (at + n ≤ length room.old)) }
    ensures { room.new ≡ sets room.old at (along (of_table t.now) n a) }
{
    let mut p = a;
    for i in 0..n {
        room[at + i as usize] = p;
        p = onward(t, p);
    }
}
