// Calls 06 and 07: a process is started and stopped.
#![tactic(auto)]

pub mod semaphores;
pub mod waits;

ghost use Rattle.machine.specs.Exchange.{asked, replied};
ghost use Rattle.machine.specs.Request.{Start, Stop};
ghost use Rattle.machine.specs.Refusal.{refusal};
ghost use Rattle.machine.specs.Legal.{Legal};
ghost use Rattle.table.specs.Promise.{Can, Gives};
ghost use Rattle.answers.specs.Promise.{answer_in, walk_in, Serves, ServesWalked};

use answers::Walked;
use machine::exchange::Answer;
use machine::refusal::Refusal;
use machine::{process, reason, state};
use table::{moves, words};

// Call 06's refusal, if there is one.
fn start_refusal(t: &[u16], a: u16) -> Result<(), Refusal>
    requires { Can t.now Legal }
    ensures { Gives t.now Legal (λ m. refusal m (Start a)) (asked result) }
{
    if answers::outside(a, words::processes(t)) {
        return Err(Refusal::NoSuchProcess);
    }
    if words::process_word(t, a, process::STATE) != state::STOPPED {
        return Err(Refusal::WrongState);
    }
    Ok(())
}

// Call 06: a stopped process wakes, with no reason.
pub fn start(t: &mut [u16], a: u16) -> Result<Walked, Refusal>
    requires { Can t.old Legal }
    ensures { ServesWalked t.old t.new (Start a) (answer_in result) (walk_in result) }
{
    start_refusal(t, a)?;
    let position = moves::wake(t, reason::NONE, a);
    Ok(answers::entered(answers::plainly(t), position))
}

// Call 07's refusal, if there is one.
fn stop_refusal(t: &[u16], a: u16) -> Result<(), Refusal>
    requires { Can t.now Legal }
    ensures { Gives t.now Legal (λ m. refusal m (Stop a)) (asked result) }
{
    if answers::outside(a, words::processes(t)) {
        return Err(Refusal::NoSuchProcess);
    }
    if words::process_word(t, a, process::STATE) == state::STOPPED {
        return Err(Refusal::WrongState);
    }
    Ok(())
}

// Call 07: a process stops, whether it runs or waits.
pub fn stop(t: &mut [u16], a: u16) -> Result<Answer, Refusal>
    requires { Can t.old Legal }
    ensures { Serves t.old t.new (Stop a) (replied result) }
{
    stop_refusal(t, a)?;
    moves::stop(t, a);
    Ok(answers::plainly(t))
}
