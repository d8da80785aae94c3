// The rings of a station, each found from its lowest process.
ghost use Rattle.std.specs.Prelude.{◌≡◌, true, ◌+◌, length};
ghost use Rattle.std.proofs.lemmas.List.Edits.{sets};
ghost use Rattle.machine.specs.Queue.{Range};
ghost use Rattle.machine.specs.Sound.{P_of, Sound};
ghost use Rattle.stuck.specs.Waiting.{of_table};
ghost use Rattle.stuck.specs.Chain.{places};
ghost use Rattle.stuck.specs.Rings.{leads, members, words_to, Met, Measured, MayPut, RingPut, MayFill};

use crate::chain::write;
use crate::meetings::{LOWEST, meet};
use crate::waits::{PLACES, holder};
use machine::header;

// How many rings there are, and how many words tell them.
#[derive(Drop)]
pub struct Extent {
    pub rings: u16,
    pub words: u16,
}

// How many processes are in the ring whose lowest is a: the links till a comes up again.
fn members(t: &[u16], a: u16) -> u16
    requires { Sound t.now × (Range (P_of t.now) a × (leads (of_table t.now) (P_of t.now) a ≡ true)) }
    ensures { result ≡ members (of_table t.now) (P_of t.now) a }
{
    let mut p = holder(t, a);
    let mut n: u16 = 1;
    while p != a {
        p = holder(t, p);
        n += 1;
    }
    n
}

// The same of any process, 0 if it is the lowest of no ring: all below a are met, and a is so then.
fn size(t: &[u16], met: &mut [u16; PLACES], a: u16) -> u16
    requires { Sound t.now × (Range (P_of t.now) a × Met (of_table t.now) (P_of t.now) a met.old) }
    ensures { (result ≡ members (of_table t.now) (P_of t.now) a) ×
        Met (of_table t.now) (P_of t.now) (a + 1) met.new }
{
    meet(t, met, a);
    if met[a as usize] != LOWEST {
        return 0;
    }
    members(t, a)
}

// All rings counted, with the 0 behind each; how many are in the ring of each process goes to its place.
pub fn measure(t: &[u16], sizes: &mut [u16; PLACES]) -> Extent
    requires { Sound t.now × (length sizes.old ≡ places) }
    ensures { Measured (of_table t.now) (P_of t.now) sizes.new result }
{
    let all = t[header::PROCESSES];
    let mut met: [u16; PLACES] = [0; PLACES];
    let mut rings: u16 = 0;
    let mut words: u16 = 0;
    for before in 0..all {
        let a = before + 1;
        let n = size(t, &mut met, a);
        sizes[a as usize] = n;
        if n != 0 {
            rings += 1;
            words += n + 1;
        }
    }
    Extent {
        rings: rings,
        words: words,
    }
}

// The ring of n processes whose lowest is a, if there is one, goes into the room at `at`: where the next goes.
fn put_ring(t: &[u16], room: &mut [u16], at: usize, a: u16, n: u16) -> usize
    requires { Sound t.now × MayPut (of_table t.now) (P_of t.now) at a n (length room.old) }
    ensures { RingPut (of_table t.now) (P_of t.now) room.old room.new at a result }
{
    if n == 0 {
        return at;
    }
    write(t, room, at, a, n);
    room[at + n as usize] = 0;
    at + n as usize + 1
}

// All rings go into the room, by rising lowest process: so many words. Behind the last ring nobody is looked at.
pub fn fill(t: &[u16], room: &mut [u16], sizes: &[u16; PLACES], words: u16)
    requires { Sound t.now × MayFill (of_table t.now) (P_of t.now) sizes.now words (length room.old) }
    ensures { room.new ≡ sets room.old 0 (words_to (of_table t.now) (P_of t.now) (P_of t.now)) }
{
    let mut at: usize = 0;
    let mut a: u16 = 0;
    while at < words as usize {
        a += 1;
        at = put_ring(t, room, at, a, sizes[a as usize]);
    }
}
