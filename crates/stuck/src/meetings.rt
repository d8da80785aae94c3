// Which processes are the lowest of a ring: each way along the waits is followed till somebody met comes up. Assumes a sound table.
ghost use Rattle.std.specs.Prelude.{◌+◌};
ghost use Rattle.machine.specs.Queue.{Range};
ghost use Rattle.machine.specs.Sound.{P_of, Sound};
ghost use Rattle.stuck.specs.Waiting.{of_table, WaitsThrough};
ghost use Rattle.stuck.specs.Rings.{Met, LowestFrom};

use crate::waits::{PLACES, holder, state};
use machine::{MOST_PROCESSES, state};

// A ring has at most so many processes.
const MOST: u16 = MOST_PROCESSES as u16;

// The mark of a ring's lowest process; that of any other is the process that the way to it began at.
pub const LOWEST: u16 = MOST + 1;

// The lowest process of the ring that p is in.
fn lowest(t: &[u16], p: u16) -> u16
    requires { Sound t.now × (Range (P_of t.now) p × WaitsThrough (of_table t.now) p p) }
    ensures { LowestFrom (of_table t.now) (P_of t.now) p result }
{
    let mut low = p;
    let mut q = p;
    for _n in 0..MOST {
        q = holder(t, q);
        if q == p {
            return low;
        }
        if q < low {
            low = q;
        }
    }
    low
}

// Who isn't met yet is marked, from a on; where somebody met on this way comes up again there is a ring.
pub fn meet(t: &[u16], met: &mut [u16; PLACES], a: u16)
    requires { Sound t.now × (Range (P_of t.now) a × Met (of_table t.now) (P_of t.now) a met.old) }
    ensures { Met (of_table t.now) (P_of t.now) (a + 1) met.new }
{
    let mut p = a;
    while met[p as usize] == 0 {
        met[p as usize] = a;
        if state(t, p) != state::WAITS_ANSWER {
            return;
        }
        p = holder(t, p);
    }
    if met[p as usize] != a {
        return;
    }
    if p == a {
        met[a as usize] = LOWEST;
        return;
    }
    let low = lowest(t, p);
    met[low as usize] = LOWEST;
}
