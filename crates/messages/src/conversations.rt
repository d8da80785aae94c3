// A conversation answered, whoever answers it.
ghost use Rattle.machine.specs.Exchange.{words_in};
ghost use Rattle.machine.specs.Machine.{owner};
ghost use Rattle.machine.specs.Moves.{answered, answer_with, waits_for};
ghost use Rattle.table.specs.Promise.{Can, Does, Gives};
ghost use Rattle.table.specs.Fits.{IsProcess};
ghost use Rattle.messages.specs.Conversations.{MayWakeIf, WakesIf, MayReturn, MayAnswer, Passes};

use machine::exchange::Words;
use machine::{buffer, process, reason, standing, state};
use table::{events, moves, words};

// Process p waits for an event, or for the answer in buffer b.
fn waits_for(t: &[u16], p: u16, b: u16) -> bool
    requires { Can t.now (IsProcess p) }
    ensures { Gives t.now (IsProcess p) (waits_for p b) result }
{
    let state = words::process_word(t, p, process::STATE);
    if state == state::WAITS_EVENT {
        return true;
    }
    if state != state::WAITS_ANSWER {
        return false;
    }
    words::process_word(t, p, process::AWAITED) == b
}

// Process p wakes, reason 1, if it waits for what has come. Its position in the running queue, 0 if it doesn't wake.
pub fn wake_if(t: &mut [u16], waits: bool, p: u16) -> u16
    requires { Can t.old (MayWakeIf waits p) }
    ensures { WakesIf t.old t.new waits p result }
{
    if !waits {
        return 0;
    }
    moves::wake(t, reason::EVENT, p)
}

// Buffer b goes back to its owner p as an answer of four words.
fn give_back(t: &mut [u16], p: u16, b: u16, words: Words)
    requires { Can t.old (MayReturn p b) }
    ensures { Does t.old t.new (MayReturn p b) (answered b (words_in words)) }
{
    words::write(t, b, words);
    words::set_standing(t, b, standing::ANSWERED);
    events::append(t, p, b);
}

// Buffer b is answered with four words, and its owner wakes if it waits for that. Its position in the running queue, 0 if it doesn't wake.
pub fn answer_with(t: &mut [u16], b: u16, words: Words) -> u16
    requires { Can t.old (MayAnswer b) }
    ensures { Passes t.old t.new (MayAnswer b) (answer_with b (words_in words)) (λ m. owner m b) result }
{
    let owner = words::buffer_word(t, b, buffer::OWNER);
    let waits = waits_for(t, owner, b);
    give_back(t, owner, b, words);
    wake_if(t, waits, owner)
}
