// Whether lent words are a sound table. Each record is looked at once by itself, and once more along its queue.
// Every call runs it, so it is written as it is cheapest: most tests of a record, a link or a name are joined by `&`, since `&&` makes the check of a full
// table a sixth dearer, and records are counted from 0, since loops over `1..=n` make it a thirtieth dearer.
#![tactic(auto)]

mod buffers;
mod devices;
mod header;
mod names;
mod processes;
mod queues;
mod records;
mod semaphores;

ghost use Rattle.std.specs.Prelude.{◌≡◌, ◌↔◌, true};
ghost use Rattle.machine.specs.Sound.{Sound};

use devices::devices;
use header::{sized, word};
use machine::process;
use queues::{FAILED, events, follow_running};
use records::records;
use semaphores::semaphore_queues;

// Sound or not, of any words at all. No word beyond the used length is read: those of the header once there are 72
// words, and those of a record once its number was compared with P, B or the
// number of semaphores, for which `sized` has found room.
pub fn sound(words: &[u16]) -> bool
    ensures { (result ≡ true) ↔ Sound words.now }
{
    if !sized(words) {
        return false;
    }
    let processes = word(words, machine::header::PROCESSES);
    let buffers = word(words, machine::header::BUFFERS);
    if !devices(words) {
        return false;
    }
    let queued = records(words, processes, buffers);
    if queued == FAILED {
        return false;
    }
    let running = events(words, processes, queued);
    if running == FAILED {
        return false;
    }
    if follow_running(
        words,
        running,
        words[machine::header::FIRST],
        0,
        process::MOST_PRIORITY,
    ) != 0
    {
        return false;
    }
    semaphore_queues(words)
}
