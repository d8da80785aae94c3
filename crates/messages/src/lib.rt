// Calls 01 and 04: a message sent, and its answer.
#![tactic(auto)]

pub mod conversations;

ghost use Rattle.machine.specs.Exchange.{words_in, asked};
ghost use Rattle.machine.specs.Machine.{zeros, owner};
ghost use Rattle.machine.specs.Legal.{Legal};
ghost use Rattle.machine.specs.Request.{Send, SendAnswer};
ghost use Rattle.machine.specs.Refusal.{free_own, refusal};
ghost use Rattle.machine.specs.Step.{queued, sent, answered_or_freed};
ghost use Rattle.table.specs.Promise.{Can, Does, Gives};
ghost use Rattle.table.specs.Fits.{Any};
ghost use Rattle.answers.specs.Promise.{answer_in, walk_in, ServesWalked};
ghost use Rattle.messages.specs.Conversations.{MayOwn, MayJoin, MaySend, Passes, MayAnswerOrFree};

use answers::Walked;
use machine::exchange::{Words, ZEROS};
use machine::refusal::Refusal;
use machine::{buffer, process, standing, state};
use table::{events, running, words};

// The lowest free buffer of process p, 0 if it has none. Own buffers stand together: word 10 says which is the first, word 11 how many there are.
fn free_own(t: &[u16], p: u16) -> u16
    requires { Can t.now (MayOwn p) }
    ensures { Gives t.now (MayOwn p) (λ m. free_own m p) result }
{
    let first = words::process_word(t, p, process::FIRST_OWN);
    let n = words::process_word(t, p, process::OWNS);
    for i in 0..n {
        let b = first + i;
        if words::buffer_word(t, b, buffer::STANDING) == standing::FREE {
            return b;
        }
    }
    0
}

// Buffer b goes last in a's event queue as a message of four words.
fn queue(t: &mut [u16], a: u16, b: u16, words: Words)
    requires { Can t.old (MayJoin a b) }
    ensures { Does t.old t.new (MayJoin a b) (queued a b (words_in words)) }
{
    words::set_receiver(t, b, a);
    words::set_standing(t, b, standing::QUEUED);
    words::write(t, b, words);
    events::append(t, a, b);
}

// Buffer b goes to a, who wakes if it waits for an event. Its position in the running queue, 0 if it doesn't wake.
fn send_in(t: &mut [u16], a: u16, b: u16, words: Words) -> u16
    requires { Can t.old (MaySend a b) }
    ensures { Passes t.old t.new (MaySend a b) (sent a b (words_in words)) (λ m. a) result }
{
    let waits = words::process_word(t, a, process::STATE) == state::WAITS_EVENT;
    queue(t, a, b, words);
    conversations::wake_if(t, waits, a)
}

// Call 01.
pub fn send(t: &mut [u16], a: u16, words: Words) -> Result<Walked, Refusal>
    requires { Can t.old Legal }
    ensures { ServesWalked t.old t.new (Send a (words_in words)) (answer_in result) (walk_in result) }
{
    let sender = running::current(t);
    if sender == 0 {
        return Err(Refusal::NoCurrent);
    }
    if answers::outside(a, words::processes(t)) {
        return Err(Refusal::NoSuchProcess);
    }
    if a == sender {
        return Err(Refusal::SentToOneself);
    }
    let b = free_own(t, sender);
    if b == 0 {
        return Err(Refusal::NoFreeBuffer);
    }
    let position = send_in(t, a, b, words);
    Ok(answers::entered(answers::done(t, 0, b, ZEROS), position))
}

// Call 04's refusal, if there is one.
fn send_answer_refusal(t: &[u16], a: u16) -> Result<(), Refusal>
    requires { Can t.now Any }
    ensures { Gives t.now Any (λ m. refusal m (SendAnswer a zeros)) (asked result) }
{
    let holder = running::current(t);
    if holder == 0 {
        return Err(Refusal::NoCurrent);
    }
    if answers::outside(a, words::buffers(t)) {
        return Err(Refusal::WrongBuffer);
    }
    let receiver = words::buffer_word(t, a, buffer::RECEIVER);
    let standing = words::buffer_word(t, a, buffer::STANDING);
    if (receiver != holder) | ((standing != standing::HELD) & (standing != standing::ORPHANED)) {
        return Err(Refusal::WrongBuffer);
    }
    Ok(())
}

// Buffer a, if held, is answered, and else, orphaned, freed. The owner's position in the running queue, 0 if it doesn't wake.
fn answer_or_free(t: &mut [u16], a: u16, words: Words) -> u16
    requires { Can t.old (MayAnswerOrFree a) }
    ensures { Passes t.old t.new (MayAnswerOrFree a) (answered_or_freed a (words_in words)) (λ m. owner m a) result }
{
    if words::buffer_word(t, a, buffer::STANDING) != standing::HELD {
        words::free(t, a);
        return 0;
    }
    conversations::answer_with(t, a, words)
}

// Call 04.
pub fn send_answer(t: &mut [u16], a: u16, words: Words) -> Result<Walked, Refusal>
    requires { Can t.old Legal }
    ensures { ServesWalked t.old t.new (SendAnswer a (words_in words)) (answer_in result) (walk_in result) }
{
    send_answer_refusal(t, a)?;
    let position = answer_or_free(t, a, words);
    Ok(answers::entered(answers::plainly(t), position))
}
