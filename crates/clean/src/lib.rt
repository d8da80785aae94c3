// Call 08: a process is cleaned, and with it the conversations it has part in.
#![tactic(auto)]

ghost use Rattle.machine.specs.Moves.{unlink, free};
ghost use Rattle.machine.specs.Legal.{Legal};
ghost use Rattle.machine.specs.Request.{Clean};
ghost use Rattle.machine.specs.Step.{halted};
ghost use Rattle.table.specs.Promise.{Can, Does};
ghost use Rattle.table.specs.Fits.{MayStop, MayTake};
ghost use Rattle.answers.specs.Promise.{walk_of, answer_in, walk_in, ServesWalked};
ghost use Rattle.clean.specs.Clean.{Stopped, MayTakeBack, taken_back, MayClean, MayCleanOwn, MayCleanReceived, CleansTo, CleansAll};

use answers::{Walk, Walked};
use machine::exchange::{Words, ZEROS};
use machine::refusal::Refusal;
use machine::{WITHDRAWN, buffer, process, reason, standing, state};
use messages::conversations;
use table::{events, moves, words};

// What cleaning did to all: how many standings changed, and the walk of the owners that woke.
#[derive(Clone, Copy)]
struct Sweep {
    changed: u16,
    walk: Walk,
}

// Process p stops, if it is not stopped; its reason becomes 0.
fn halt(t: &mut [u16], p: u16)
    requires { Can t.old (MayStop p) }
    ensures { Does t.old t.new (MayStop p) (halted p) }
{
    if words::process_word(t, p, process::STATE) == state::STOPPED {
        words::set_process_word(t, p, process::REASON, reason::NONE);
        return;
    }
    moves::stop(t, p);
}

// Buffer b leaves the event queue of p, and becomes free.
fn withdraw(t: &mut [u16], p: u16, b: u16)
    requires { Can t.old (MayTake p b) }
    ensures { Does t.old t.new (MayTake p b) (λ m. free b (unlink p b m)) }
{
    events::unlink(t, p, b);
    words::free(t, b);
}

// What cleaning p does to its own buffer b; nobody wakes. Where its standing changes a position in the running queue is told, here and
// below: the one to which its owner woke, 0 if it didn't.
fn clean_own(t: &mut [u16], p: u16, b: u16) -> Option<u16>
    requires { Can t.old (MayCleanOwn p b) }
    ensures { CleansTo (MayCleanOwn p b) t.old t.new p b result }
{
    let standing = words::buffer_word(t, b, buffer::STANDING);
    if standing == standing::QUEUED {
        let receiver = words::buffer_word(t, b, buffer::RECEIVER);
        withdraw(t, receiver, b);
        return Some(0);
    }
    if standing == standing::ANSWERED {
        withdraw(t, p, b);
        return Some(0);
    }
    if standing == standing::HELD {
        words::set_standing(t, b, standing::ORPHANED);
        return Some(0);
    }
    None
}

// Buffer b, of that standing, leaves the event queue of p if it is queued there.
fn take_back(t: &mut [u16], p: u16, b: u16, standing: u16)
    requires { Can t.old (MayTakeBack p b standing) }
    ensures { Does t.old t.new (MayTakeBack p b standing) (taken_back p b standing) }
{
    if standing != standing::QUEUED {
        return;
    }
    events::unlink(t, p, b);
}

// What cleaning p does to buffer b of another owner, whose receiver it is.
fn clean_received(t: &mut [u16], p: u16, b: u16) -> Option<u16>
    requires { Can t.old (MayCleanReceived p b) }
    ensures { CleansTo (MayCleanReceived p b) t.old t.new p b result }
{
    let standing = words::buffer_word(t, b, buffer::STANDING);
    if (standing == standing::QUEUED) | (standing == standing::HELD) {
        take_back(t, p, b, standing);
        let withdrawn = Words {
            w0: WITHDRAWN,
            ..ZEROS
        };
        return Some(conversations::answer_with(t, b, withdrawn));
    }
    if standing == standing::ORPHANED {
        words::free(t, b);
        return Some(0);
    }
    None
}

// What cleaning p does to buffer b.
fn clean_buffer(t: &mut [u16], p: u16, b: u16) -> Option<u16>
    requires { Can t.old (MayClean b) }
    ensures { CleansTo (MayClean b) t.old t.new p b result }
{
    if words::buffer_word(t, b, buffer::OWNER) == p {
        return clean_own(t, p, b);
    }
    if words::buffer_word(t, b, buffer::RECEIVER) == p {
        return clean_received(t, p, b);
    }
    None
}

// What cleaning p does to all buffers, by rising number.
fn clean_buffers(t: &mut [u16], p: u16) -> Sweep
    requires { Can t.old (Stopped p) }
    ensures { CleansAll t.old t.new p result.changed (walk_of result.walk) }
{
    let n = words::buffers(t);
    let mut changed: u16 = 0;
    let mut walk = answers::nowhere();
    for i in 0..n {
        let Some(position) = clean_buffer(t, p, i + 1) else {
            continue;
        };
        changed += 1;
        walk = answers::walk_to(walk, position);
    }
    Sweep { changed, walk }
}

// Call 08.
pub fn clean(t: &mut [u16], a: u16) -> Result<Walked, Refusal>
    requires { Can t.old Legal }
    ensures { ServesWalked t.old t.new (Clean a) (answer_in result) (walk_in result) }
{
    if answers::outside(a, words::processes(t)) {
        return Err(Refusal::NoSuchProcess);
    }
    halt(t, a);
    let sweep = clean_buffers(t, a);
    Ok(Walked {
        answer: answers::done(t, sweep.changed, 0, ZEROS),
        walk: sweep.walk,
    })
}
