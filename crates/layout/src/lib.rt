// docs/MONITOR.md, 4: whether a list may be laid out, and the words of the table laid out by it.
#![tactic(auto)]

mod entries;
mod setting;
mod words;

ghost use Rattle.std.specs.Prelude.{◌≡◌, length, drop};
ghost use Rattle.machine.specs.Exchange.{asked};
ghost use Rattle.machine.specs.Words.{size, Shows};
ghost use Rattle.machine.specs.Layout.{sum, entries, laid_over, layout_refusal};

use machine::refusal::Refusal;
use machine::{buffer, entry, header, process, semaphore};

// The refusal of a layout by this list in that edition with semaphores of these counters, for a table of that many words, if there is
// one.
pub fn refusal(list: &[u16], edition: u16, counters: &[u16], room: usize) -> Result<(), Refusal>
    ensures { asked result ≡ layout_refusal list.now edition counters.now room }
{
    if !setting::setting_ok(edition, counters) {
        return Err(Refusal::WrongList);
    }
    if !entries::acceptable(list) {
        return Err(Refusal::WrongList);
    }
    if room
        < header::WORDS
            + process::WORDS * (list.len() / entry::WORDS)
            + buffer::WORDS * entries::buffers(list)
            + semaphore::WORDS * counters.len()
    {
        return Err(Refusal::TableTooShort);
    }
    Ok(())
}

// The table laid out by a list that isn't refused, whatever it held before; the words beyond stay.
pub fn lay(list: &[u16], edition: u16, counters: &[u16], table: &mut [u16])
    requires { layout_refusal list.now edition counters.now (length table.old) ≡ 0 }
    ensures { Shows table.new (laid_over (drop (size (length (entries list.now)) (sum (entries list.now))
        (length counters.now)) table.old) edition counters.now (entries list.now)) }
{
    let processes = list.len() / entry::WORDS;
    let buffers = entries::buffers(list);
    let used = header::WORDS
        + process::WORDS * processes
        + buffer::WORDS * buffers
        + semaphore::WORDS * counters.len();
    for i in 0..used {
        table[i] = words::word(list, edition, counters, processes, buffers, i);
    }
}
