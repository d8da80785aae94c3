// A record looked at by the clause of a number: nothing of what is right, else the place of the word that is named.
ghost use Rattle.std.specs.Prelude.{◌≡◌, ◌≤◌};
ghost use Rattle.machine.specs.Numbers.{most_buffers};
ghost use Rattle.machine.specs.Queue.{Range};
ghost use Rattle.why.specs.Clause.{last_clause, clause_of, many};
ghost use Rattle.why.specs.Looked.{Looked, Ready, Asks, sort_by};

use crate::fixed::{first_own, name, name_apart, owner, priority, semaphore_zero};
use crate::queues::Kind;
use crate::single::{
    buffer_links, device_word, edition, free_words, given_out, header_zero, process_links, sizes,
};
use crate::states::{
    answer_wait, counter, delay, event_wait, interrupt_wait, no_reason, priority_falls, reason,
    receiver, semaphore_wait, standing, state,
};
use crate::words::{buffer_place, named_if, process_place, semaphore_place, word};
use crate::{clause, queues};
use machine::{buffer, device, header, process, semaphore};

// The clauses 6 to 14, on fixed words and own buffers.
#[tactic(auto, unfolding(crate::specs::Clause::clause_of))]
fn fixed_words(words: &[u16], c: usize, r: usize) -> Option<usize>
    requires { Asks words.now c r × ((6 ≤ c) × (c ≤ 14)) }
    ensures { Looked words.now (clause_of c) r result }
{
    match c {
        clause::EDITION => edition(words, r),
        clause::HEADER_ZERO => header_zero(words, r),
        clause::SEMAPHORE_ZERO => named_if(
            semaphore_zero(words, r),
            semaphore_place(words, r, semaphore::ZERO),
        ),
        clause::PRIORITY => named_if(
            priority(words, r),
            process_place(words, r, process::PRIORITY),
        ),
        clause::NAME => named_if(name(words, r), process_place(words, r, process::NAME)),
        clause::NAME_TWICE => named_if(
            name_apart(words, r),
            process_place(words, r, process::NAME),
        ),
        clause::FIRST_OWN => named_if(
            first_own(words, r),
            process_place(words, r, process::FIRST_OWN),
        ),
        clause::ALL_OWNED => given_out(words, r),
        _ => named_if(owner(words, r), buffer_place(words, r, buffer::OWNER)),
    }
}

// The clauses 15 to 22, on the running queue.
#[tactic(auto, unfolding(crate::specs::Clause::clause_of))]
fn running(words: &[u16], c: usize, r: usize) -> Option<usize>
    requires { Asks words.now c r × ((15 ≤ c) × (c ≤ 22)) }
    ensures { Looked words.now (clause_of c) r result }
{
    match c {
        clause::RUNNING_FIRST => queues::first(words, Kind::Running, r),
        clause::RUNNING_LAST => queues::last(words, Kind::Running, r),
        clause::RUNNING_START => queues::start(words, Kind::Running, r),
        clause::RUNNING_NEXT => queues::next(words, Kind::Running, r),
        clause::RUNNING_BACK => queues::back(words, Kind::Running, r),
        clause::RUNNING_MET => queues::met(words, Kind::Running, r),
        clause::PRIORITY_RISES => named_if(
            priority_falls(words, r),
            process_place(words, r, process::PRIORITY),
        ),
        _ => process_links(words, r),
    }
}

// The clauses 23 to 29, on event queues.
#[tactic(auto, unfolding(crate::specs::Clause::clause_of))]
fn events(words: &[u16], c: usize, r: usize) -> Option<usize>
    requires { Asks words.now c r × ((23 ≤ c) × (c ≤ 29)) }
    ensures { Looked words.now (clause_of c) r result }
{
    match c {
        clause::EVENT_FIRST => queues::first(words, Kind::Events, r),
        clause::EVENT_LAST => queues::last(words, Kind::Events, r),
        clause::EVENT_START => queues::start(words, Kind::Events, r),
        clause::EVENT_NEXT => queues::next(words, Kind::Events, r),
        clause::EVENT_BACK => queues::back(words, Kind::Events, r),
        clause::EVENT_MET => queues::met(words, Kind::Events, r),
        _ => buffer_links(words, r),
    }
}

// The clauses 30 to 39, on buffers and semaphores.
#[tactic(auto, unfolding(crate::specs::Clause::clause_of))]
fn buffers_semaphores(words: &[u16], c: usize, r: usize) -> Option<usize>
    requires { Asks words.now c r × ((30 ≤ c) × (c ≤ 39)) }
    ensures { Looked words.now (clause_of c) r result }
{
    match c {
        clause::STANDING => named_if(standing(words, r), buffer_place(words, r, buffer::STANDING)),
        clause::FREE => free_words(words, r),
        clause::RECEIVER => named_if(receiver(words, r), buffer_place(words, r, buffer::RECEIVER)),
        clause::WAITING_FIRST => queues::first(words, Kind::Semaphores, r),
        clause::WAITING_LAST => queues::last(words, Kind::Semaphores, r),
        clause::WAITING_START => queues::start(words, Kind::Semaphores, r),
        clause::WAITING_NEXT => queues::next(words, Kind::Semaphores, r),
        clause::WAITING_BACK => queues::back(words, Kind::Semaphores, r),
        clause::WAITING_MET => queues::met(words, Kind::Semaphores, r),
        _ => named_if(
            counter(words, r),
            semaphore_place(words, r, semaphore::COUNTER),
        ),
    }
}

// The clauses 40 to 48, on processes and devices.
#[tactic(auto, unfolding(crate::specs::Clause::clause_of))]
fn processes_devices(words: &[u16], c: usize, r: usize) -> Option<usize>
    requires { Asks words.now c r × ((40 ≤ c) × (c ≤ 48)) }
    ensures { Looked words.now (clause_of c) r result }
{
    match c {
        clause::STATE => named_if(state(words, r), process_place(words, r, process::STATE)),
        clause::REASON => named_if(reason(words, r), process_place(words, r, process::REASON)),
        clause::REASON_LEFT => named_if(
            no_reason(words, r),
            process_place(words, r, process::REASON),
        ),
        clause::AWAITED_SEMAPHORE => named_if(
            semaphore_wait(words, r),
            process_place(words, r, process::SEMAPHORE),
        ),
        clause::EVENT_THERE => named_if(
            event_wait(words, r),
            process_place(words, r, process::FIRST),
        ),
        clause::AWAITED_BUFFER => named_if(
            answer_wait(words, r),
            process_place(words, r, process::AWAITED),
        ),
        clause::AWAITED_DEVICE => named_if(
            interrupt_wait(words, r),
            process_place(words, r, process::DEVICE),
        ),
        clause::DELAY => named_if(delay(words, r), process_place(words, r, process::DELAY)),
        _ => device_word(words, r),
    }
}

// Record r, looked at by clause c.
pub fn look(words: &[u16], c: usize, r: usize) -> Option<usize>
    requires { Asks words.now c r × Range last_clause c }
    ensures { Looked words.now (clause_of c) r result }
{
    match c {
        ..=clause::WORDS => sizes(words, c, r),
        ..=clause::OWNER => fixed_words(words, c, r),
        ..=clause::PROCESS_LINKED => running(words, c, r),
        ..=clause::BUFFER_LINKED => events(words, c, r),
        ..=clause::COUNTER => buffers_semaphores(words, c, r),
        _ => processes_devices(words, c, r),
    }
}

// How many records clause c speaks of.
#[tactic(auto, unfolding(crate::specs::Looked::sort_by))]
pub fn records(words: &[u16], c: usize) -> usize
    requires { Ready words.now c × Range last_clause c }
    ensures { (result ≡ many words.now (sort_by c)) × (result ≤ most_buffers) }
{
    match c {
        ..=clause::EDITION => 1,
        clause::HEADER_ZERO => 2,
        clause::SEMAPHORE_ZERO => word(words, header::SEMAPHORES),
        ..=clause::FIRST_OWN => word(words, header::PROCESSES),
        clause::ALL_OWNED => 1,
        clause::OWNER => word(words, header::BUFFERS),
        ..=clause::RUNNING_START => 1,
        ..=clause::EVENT_START => word(words, header::PROCESSES),
        ..=clause::RECEIVER => word(words, header::BUFFERS),
        ..=clause::WAITING_START => word(words, header::SEMAPHORES),
        ..=clause::WAITING_MET => word(words, header::PROCESSES),
        clause::COUNTER => word(words, header::SEMAPHORES),
        ..=clause::DELAY => word(words, header::PROCESSES),
        _ => device::COUNT,
    }
}
