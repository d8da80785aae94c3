// Waits ended, and processes woken, paused and stopped.
ghost use Rattle.machine.specs.Moves.{off_device, end_wait, wake, leave_running, pause, stop};
ghost use Rattle.table.specs.Promise.{Can, Does, Goes};
ghost use Rattle.table.specs.Fits.{MayPause, MayEndWait, MayWake, MayHalt, MayStop};
ghost use Rattle.table.specs.Links.{position};

use crate::{running, semaphores, words};
use machine::{process, reason, state};

// The word of the device that p waits for becomes 0.
fn off_device(t: &mut [u16], p: u16)
    requires { Can t.old (MayEndWait p) }
    ensures { Does t.old t.new (MayEndWait p) (off_device p) }
{
    let device = words::process_word(t, p, process::DEVICE);
    if device == 0 {
        return;
    }
    words::set_device_word(t, device - 1, 0);
}

// Process p waits for nothing any more.
pub fn end_wait(t: &mut [u16], p: u16)
    requires { Can t.old (MayEndWait p) }
    ensures { Does t.old t.new (MayEndWait p) (end_wait p) }
{
    off_device(t, p);
    words::set_process_word(t, p, process::DELAY, 0);
    words::set_process_word(t, p, process::AWAITED, 0);
    words::set_process_word(t, p, process::DEVICE, 0);
}

// Process p wakes: its wait ends, and it goes into the running queue, with that reason. Its position there, from 1.
pub fn wake(t: &mut [u16], reason: u16, p: u16) -> u16
    requires { Can t.old (MayWake p) }
    ensures { Goes t.old t.new (MayWake p) (wake reason p) (position reason p) result }
{
    end_wait(t, p);
    words::set_process_word(t, p, process::STATE, state::RUNNING);
    words::set_process_word(t, p, process::REASON, reason);
    running::enter_running(t, reason, p)
}

// Process p, the first of the running queue, leaves it, in another state, with reason 0.
pub fn pause(t: &mut [u16], state: u16, p: u16)
    requires { Can t.old (MayPause p) }
    ensures { Does t.old t.new (MayPause p) (pause state p) }
{
    running::leave_first(t, p);
    words::set_process_word(t, p, process::STATE, state);
    words::set_process_word(t, p, process::REASON, reason::NONE);
}

// Process p leaves the running queue, if it is in it.
fn halt(t: &mut [u16], p: u16)
    requires { Can t.old (MayHalt p) }
    ensures { Does t.old t.new (MayHalt p) (leave_running p) }
{
    if words::process_word(t, p, process::STATE) != state::RUNNING {
        return;
    }
    running::leave_running(t, p);
}

// Process p stops, whether it runs or waits.
pub fn stop(t: &mut [u16], p: u16)
    requires { Can t.old (MayStop p) }
    ensures { Does t.old t.new (MayStop p) (stop p) }
{
    semaphores::off_semaphore(t, p);
    end_wait(t, p);
    halt(t, p);
    words::set_process_word(t, p, process::STATE, state::STOPPED);
    words::set_process_word(t, p, process::REASON, reason::NONE);
}
