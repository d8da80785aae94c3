// Calls 0C and 0D, OSCAR's LOWER and RAISE: current takes one off a semaphore's counter, or adds one.
ghost use Rattle.std.specs.Prelude.{[], ◌∷◌, ◌++◌};
ghost use Rattle.machine.specs.Numbers.{state_waits_semaphore, reason_none, reason_raise};
ghost use Rattle.machine.specs.Exchange.{asked, replied};
ghost use Rattle.machine.specs.Machine.{put_semaphore, set_reason, set_semaphore};
ghost use Rattle.machine.specs.Moves.{pause};
ghost use Rattle.machine.specs.Request.{Lower, Raise};
ghost use Rattle.machine.specs.Refusal.{refusal};
ghost use Rattle.machine.specs.Step.{lowered, relieved};
ghost use Rattle.machine.specs.Legal.{Legal};
ghost use Rattle.table.specs.Promise.{Can, Does, Gives, Goes};
ghost use Rattle.table.specs.Links.{position};
ghost use Rattle.answers.specs.Promise.{answer_in, walk_in, Serves, ServesWalked};
ghost use Rattle.processes.specs.Semaphores.{MayWaitInQueue, MayTakeOne, MayRelieve};

use answers::Walked;
use machine::exchange::Answer;
use machine::refusal::Refusal;
use machine::{process, reason, semaphore, state};
use table::{moves, running, semaphores, words};

// Call 0C's refusal, if there is one.
fn lower_refusal(t: &[u16], a: u16) -> Result<(), Refusal>
    requires { Can t.now Legal }
    ensures { Gives t.now Legal (λ m. refusal m (Lower a)) (asked result) }
{
    if running::current(t) == 0 {
        return Err(Refusal::NoCurrent);
    }
    if answers::outside(a, semaphores::semaphores(t)) {
        return Err(Refusal::NoSuchSemaphore);
    }
    Ok(())
}

// Process p, which runs, waits for semaphore a, last in its queue, and the counter's word becomes x.
fn wait_in_queue(t: &mut [u16], p: u16, a: u16, x: u16)
    requires { Can t.old (MayWaitInQueue p a) }
    ensures { Does t.old t.new (MayWaitInQueue p a)
        (λ m. put_semaphore a x (m.waiters a ++ (p ∷ [])) (set_semaphore p a (pause state_waits_semaphore p m))) }
{
    moves::pause(t, state::WAITS_SEMAPHORE, p);
    semaphores::set_named(t, p, a);
    semaphores::wait_last(t, a, p);
    semaphores::set_counter(t, a, x);
}

// Process p, which runs, goes on with reason 0, and the word of semaphore a's counter becomes x.
fn go_on(t: &mut [u16], p: u16, a: u16, x: u16)
    requires { Can t.old (MayWaitInQueue p a) }
    ensures { Does t.old t.new (MayWaitInQueue p a) (λ m. put_semaphore a x (m.waiters a) (set_reason p reason_none m)) }
{
    words::set_process_word(t, p, process::REASON, reason::NONE);
    semaphores::set_counter(t, a, x);
}

// Process p, which runs, takes one off the counter of semaphore a; below zero it waits.
fn take_one(t: &mut [u16], p: u16, a: u16)
    requires { Can t.old (MayTakeOne p a) }
    ensures { Does t.old t.new (MayTakeOne p a) (lowered a p) }
{
    let x = counter::lower(semaphores::counter_word(t, a));
    if counter::below_zero(x) {
        wait_in_queue(t, p, a, x);
        return;
    }
    go_on(t, p, a, x);
}

// Call 0C: current takes one off the counter of semaphore a, and waits if that is below zero then.
pub fn lower(t: &mut [u16], a: u16) -> Result<Answer, Refusal>
    requires { Can t.old Legal }
    ensures { Serves t.old t.new (Lower a) (replied result) }
{
    lower_refusal(t, a)?;
    let p = running::current(t);
    take_one(t, p, a);
    Ok(answers::plainly(t))
}

// Call 0D's refusal, if there is one.
fn raise_refusal(t: &[u16], a: u16) -> Result<(), Refusal>
    requires { Can t.now Legal }
    ensures { Gives t.now Legal (λ m. refusal m (Raise a)) (asked result) }
{
    if running::current(t) == 0 {
        return Err(Refusal::NoCurrent);
    }
    if answers::outside(a, semaphores::semaphores(t)) {
        return Err(Refusal::NoSuchSemaphore);
    }
    if semaphores::counter_word(t, a) == semaphore::MOST_COUNTER {
        return Err(Refusal::CounterFull);
    }
    Ok(())
}

// Process p, the longest waiter of semaphore a, leaves its queue, so that its counter rises, and wakes: its LOWER is done. Its position in the running queue,
// from 1.
fn relieve(t: &mut [u16], a: u16, p: u16) -> u16
    requires { Can t.old (MayRelieve a p) }
    ensures { Goes t.old t.new (MayRelieve a p) (relieved p) (position reason_raise p) result }
{
    semaphores::leave_first(t, a, p);
    moves::wake(t, reason::RAISE, p)
}

// Call 0D: one is added to the counter of semaphore a, and at zero or below its longest waiter wakes.
pub fn raise(t: &mut [u16], a: u16) -> Result<Walked, Refusal>
    requires { Can t.old Legal }
    ensures { ServesWalked t.old t.new (Raise a) (answer_in result) (walk_in result) }
{
    raise_refusal(t, a)?;
    let x = semaphores::counter_word(t, a);
    if !counter::below_zero(x) {
        semaphores::set_counter(t, a, counter::raise(x));
        return Ok(answers::still(answers::plainly(t)));
    }
    let position = relieve(t, a, semaphores::first_waiter(t, a));
    Ok(answers::entered(answers::plainly(t), position))
}
