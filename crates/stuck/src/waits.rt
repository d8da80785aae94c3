// What a table says of the waits: a process's state, the buffer it waits for, and who has that buffer as receiver.
ghost use Rattle.std.specs.Prelude.{◌≡◌};
ghost use Rattle.machine.specs.Numbers.{state_waits_answer};
ghost use Rattle.machine.specs.Records.{process_state, process_awaited, buffer_receiver};
ghost use Rattle.machine.specs.Queue.{Range};
ghost use Rattle.machine.specs.Sound.{P_of, B_of, process_at, buffer_at, Sound};
ghost use Rattle.stuck.specs.Waiting.{of_table};
ghost use Rattle.stuck.specs.Chain.{onward};

use machine::{MOST_PROCESSES, buffer, process, state};
use table::words;

// A place for the number of each process that there may be, and for 0.
pub const PLACES: usize = MOST_PROCESSES + 1;

// The state of process p.
pub fn state(t: &[u16], p: u16) -> u16
    requires { Sound t.now × Range (P_of t.now) p }
    ensures { result ≡ process_at t.now p process_state }
{
    words::process_word(t, p, process::STATE)
}

// The buffer that process p waits for.
pub fn awaited(t: &[u16], p: u16) -> u16
    requires { Sound t.now × Range (P_of t.now) p }
    ensures { result ≡ process_at t.now p process_awaited }
{
    words::process_word(t, p, process::AWAITED)
}

// The process that has buffer b as receiver.
pub fn receiver(t: &[u16], b: u16) -> u16
    requires { Sound t.now × Range (B_of t.now) b }
    ensures { result ≡ buffer_at t.now b buffer_receiver }
{
    words::buffer_word(t, b, buffer::RECEIVER)
}

// Whom process p, in state 3, waits for.
pub fn holder(t: &[u16], p: u16) -> u16
    requires { Sound t.now × (Range (P_of t.now) p × (process_at t.now p process_state ≡ state_waits_answer)) }
    ensures { (result ≡ (of_table t.now).holder p) × Range (P_of t.now) result }
{
    receiver(t, awaited(t, p))
}

// The same of any process: p itself if it is not in state 3.
pub fn onward(t: &[u16], p: u16) -> u16
    requires { Sound t.now × Range (P_of t.now) p }
    ensures { (result ≡ onward (of_table t.now) p) × Range (P_of t.now) result }
{
    if state(t, p) != state::WAITS_ANSWER {
        return p;
    }
    holder(t, p)
}
