// Calls 02, 03 and 05: current takes what it asks for, or waits for it. Call 0A: an interrupt ends a wait, or is kept.
ghost use Rattle.std.specs.Prelude.{ℕ};
ghost use Rattle.machine.specs.Numbers.{kind_message, kind_answer, kind_kept};
ghost use Rattle.machine.specs.Exchange.{said, asked, replied};
ghost use Rattle.machine.specs.Machine.{waiter, zeros, message, put_process};
ghost use Rattle.machine.specs.Moves.{pause};
ghost use Rattle.machine.specs.Request.{WaitAnswer, WaitEvent, WaitInterrupt, Interrupt};
ghost use Rattle.machine.specs.Refusal.{refusal};
ghost use Rattle.machine.specs.Step.{done, held, collected, waits_interrupt, interrupted, unawaited};
ghost use Rattle.machine.specs.Legal.{Legal};
ghost use Rattle.table.specs.Promise.{Can, Does, Gives};
ghost use Rattle.table.specs.Fits.{IsDevice, IsBuffer, MayTake, MayTakeFirst};
ghost use Rattle.answers.specs.Promise.{answer_in, walk_in, Serves, ServesWalked};
ghost use Rattle.processes.specs.Waits.{MayWait, MayWaitDevice, LeadsTo};

use answers::Walked;
use machine::exchange::{Answer, ZEROS};
use machine::refusal::Refusal;
use machine::{buffer, device, edition, kind, process, reason, standing, state};
use table::{events, moves, running, words};

// The process that waits for device a, 0 for none: a kept interrupt is no process.
fn waiter(t: &[u16], a: u16) -> u16
    requires { Can t.now (IsDevice a) }
    ensures { Gives t.now (IsDevice a) (λ m. waiter m a) result }
{
    let word = words::device_word(t, a);
    if word == device::KEPT {
        return 0;
    }
    word
}

// An interrupt of device a, for which nobody waits: kept in edition 1.
fn unawaited(t: &mut [u16], a: u16)
    requires { Can t.old (IsDevice a) }
    ensures { Does t.old t.new (IsDevice a) (unawaited a) }
{
    if words::edition(t) != edition::SECOND {
        return;
    }
    words::set_device_word(t, a, device::KEPT);
}

// Call 0A: the waiter of device a wakes, or the interrupt is kept.
pub fn interrupt(t: &mut [u16], a: u16) -> Result<Walked, Refusal>
    requires { Can t.old Legal }
    ensures { ServesWalked t.old t.new (Interrupt a) (answer_in result) (walk_in result) }
{
    if device::LAST < a {
        return Err(Refusal::NoSuchDevice);
    }
    let p = waiter(t, a);
    if p == 0 {
        unawaited(t, a);
        return Ok(answers::still(answers::plainly(t)));
    }
    let position = moves::wake(t, reason::INTERRUPT, p);
    Ok(answers::entered(answers::done(t, p, 0, ZEROS), position))
}

// Process p, which runs, waits in that state, with x in its word f.
fn begin_wait(t: &mut [u16], p: u16, state: u16, f: usize, x: u16)
    requires { Can t.old (MayWait p f) }
    ensures { Does t.old t.new (MayWait p f) (λ m. put_process p f x (pause state p m)) }
{
    moves::pause(t, state, p);
    words::set_process_word(t, p, f, x);
}

// Process p, which runs, waits for device a.
fn begin_device_wait(t: &mut [u16], p: u16, a: u16, delay: u16)
    requires { Can t.old (MayWaitDevice p a) }
    ensures { Does t.old t.new (MayWaitDevice p a) (waits_interrupt a delay p) }
{
    begin_wait(t, p, state::WAITS_INTERRUPT, process::DEVICE, a + 1);
    words::set_process_word(t, p, process::DELAY, delay);
    words::set_device_word(t, a, p);
}

// Call 05's refusal, if there is one, whatever the delay.
fn wait_interrupt_refusal(t: &[u16], a: u16) -> Result<(), Refusal>
    requires { Can t.now Legal }
    ensures { (d : ℕ) → Gives t.now Legal (λ m. refusal m (WaitInterrupt a d)) (asked result) }
{
    if running::current(t) == 0 {
        return Err(Refusal::NoCurrent);
    }
    if device::LAST < a {
        return Err(Refusal::NoSuchDevice);
    }
    if waiter(t, a) != 0 {
        return Err(Refusal::DeviceTaken);
    }
    Ok(())
}

// Process p, which runs, takes the interrupt that device a keeps.
fn take_interrupt(t: &mut [u16], p: u16, a: u16) -> Answer
    requires { Can t.old (MayWaitDevice p a) }
    ensures { LeadsTo t.old t.new (MayWaitDevice p a) (λ m. done kind_kept 0 zeros (interrupted a p m)) (said result) }
{
    words::set_process_word(t, p, process::REASON, reason::NONE);
    words::set_device_word(t, a, 0);
    answers::done(t, kind::KEPT, 0, ZEROS)
}

// Call 05: current takes the interrupt that device a keeps, or waits for one with delay b.
pub fn wait_interrupt(t: &mut [u16], a: u16, b: u16) -> Result<Answer, Refusal>
    requires { Can t.old Legal }
    ensures { Serves t.old t.new (WaitInterrupt a b) (replied result) }
{
    wait_interrupt_refusal(t, a)?;
    let p = running::current(t);
    if words::device_word(t, a) == device::KEPT {
        return Ok(take_interrupt(t, p, a));
    }
    begin_device_wait(t, p, a, b);
    Ok(answers::plainly(t))
}

// The answer that gives buffer b and its message, or answer.
fn given(t: &[u16], kind: u16, b: u16) -> Answer
    requires { Can t.now (IsBuffer b) }
    ensures { Gives t.now (IsBuffer b) (λ m. (done kind b (message m b) m).answer) (said result) }
{
    answers::done(t, kind, b, words::message(t, b))
}

// Process p takes the message that is the first of its event queue: it becomes held.
fn hold(t: &mut [u16], p: u16, b: u16) -> Answer
    requires { Can t.old (MayTakeFirst p b) }
    ensures { LeadsTo t.old t.new (MayTakeFirst p b) (λ m. done kind_message b (message m b) (held p b m)) (said result) }
{
    let answer = given(t, kind::MESSAGE, b);
    events::unlink_first(t, p, b);
    words::set_standing(t, b, standing::HELD);
    words::set_process_word(t, p, process::REASON, reason::NONE);
    answer
}

// Process p takes an answer out of its event queue, wherever it stands: its buffer becomes free.
fn collect(t: &mut [u16], p: u16, b: u16) -> Answer
    requires { Can t.old (MayTake p b) }
    ensures { LeadsTo t.old t.new (MayTake p b) (λ m. done kind_answer b (message m b) (collected p b m)) (said result) }
{
    let answer = given(t, kind::ANSWER, b);
    events::unlink(t, p, b);
    words::free(t, b);
    words::set_process_word(t, p, process::REASON, reason::NONE);
    answer
}

// Call 03: current takes the first of its event queue, or waits with delay a.
pub fn wait_event(t: &mut [u16], a: u16) -> Result<Answer, Refusal>
    requires { Can t.old Legal }
    ensures { Serves t.old t.new (WaitEvent a) (replied result) }
{
    let p = running::current(t);
    if p == 0 {
        return Err(Refusal::NoCurrent);
    }
    let b = events::first_event(t, p);
    if b == 0 {
        begin_wait(t, p, state::WAITS_EVENT, process::DELAY, a);
        return Ok(answers::plainly(t));
    }
    if words::buffer_word(t, b, buffer::STANDING) == standing::QUEUED {
        return Ok(hold(t, p, b));
    }
    Ok(collect(t, p, b))
}

// Call 02's refusal, if there is one.
fn wait_answer_refusal(t: &[u16], a: u16) -> Result<(), Refusal>
    requires { Can t.now Legal }
    ensures { Gives t.now Legal (λ m. refusal m (WaitAnswer a)) (asked result) }
{
    let p = running::current(t);
    if p == 0 {
        return Err(Refusal::NoCurrent);
    }
    if answers::outside(a, words::buffers(t)) {
        return Err(Refusal::WrongBuffer);
    }
    let owner = words::buffer_word(t, a, buffer::OWNER);
    let standing = words::buffer_word(t, a, buffer::STANDING);
    if (owner != p) | ((standing == standing::FREE) | (standing == standing::ORPHANED)) {
        return Err(Refusal::WrongBuffer);
    }
    Ok(())
}

// Call 02: current takes the answer in buffer a, or waits for it.
pub fn wait_answer(t: &mut [u16], a: u16) -> Result<Answer, Refusal>
    requires { Can t.old Legal }
    ensures { Serves t.old t.new (WaitAnswer a) (replied result) }
{
    wait_answer_refusal(t, a)?;
    let p = running::current(t);
    if words::buffer_word(t, a, buffer::STANDING) == standing::ANSWERED {
        return Ok(collect(t, p, a));
    }
    begin_wait(t, p, state::WAITS_ANSWER, process::AWAITED, a);
    Ok(answers::plainly(t))
}
