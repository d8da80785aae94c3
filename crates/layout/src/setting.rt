// What refusal 11 asks of the edition and the counters.
ghost use Rattle.std.specs.Prelude.{◌≡◌};
ghost use Rattle.machine.specs.Layout.{startable, setting_ok};

use machine::{MOST_SEMAPHORES, edition, semaphore};

// Every counter is 0 to 32,767.
fn startable(counters: &[u16]) -> bool
    ensures { result ≡ startable counters.now }
{
    for counter in counters {
        if *counter > semaphore::MOST_COUNTER {
            return false;
        }
    }
    true
}

// An edition there is, and at most 16 counters, each in its range.
pub fn setting_ok(edition: u16, counters: &[u16]) -> bool
    ensures { result ≡ setting_ok edition counters.now }
{
    edition <= edition::SECOND && counters.len() <= MOST_SEMAPHORES && startable(counters)
}
