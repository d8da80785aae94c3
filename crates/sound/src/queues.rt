// The queues, followed link by link. A walk gives the links that it leaves of those it may follow, or FAILED.
ghost use Rattle.std.specs.Prelude.{◌≡◌, ◌+◌, ◌*◌, ◌≤◌, length, eqb};
ghost use Rattle.machine.specs.Numbers.{state_running, most_buffers};
ghost use Rattle.machine.specs.Records.{header_width, process_base, process_width, process_last, process_priority, buffer_base, buffer_width};
ghost use Rattle.machine.specs.Queue.{if};
ghost use Rattle.machine.specs.Sound.{P_of, B_of, process_at};
ghost use Rattle.lists.specs.Counts.{bit};
ghost use Rattle.sound.specs.Queues.{failed, at_end, belongs, event_step, next_buffer, follow_events, GoesOn, event_queue, sweep, running, limit};
ghost use Rattle.sound.specs.Queues.{running_step, next_process, follow_running, RunsOn};
ghost use Rattle.sound.specs.Records.{Lent};

use machine::{MOST_BUFFERS, buffer, header, process, standing, state};

// Stands for a number of links or records where the table is not sound: more than there can be.
pub const FAILED: usize = MOST_BUFFERS + 1;

// The end of a queue, with `left` links left: its last record is `last`.
pub fn at_end(left: usize, before: u16, last: u16) -> usize
    ensures { result ≡ at_end left before last }
{
    if before == last { left } else { FAILED }
}

// A buffer of that standing, receiver and owner belongs to p's event queue.
fn belongs(standing: u16, receiver: u16, owner: u16, p: u16) -> bool
    ensures { result ≡ belongs standing receiver owner p }
{
    if standing == standing::QUEUED {
        return receiver == p;
    }
    (standing == standing::ANSWERED) & (owner == p)
}

// Buffer `at` may stand in p's event queue behind `before`.
fn event_step(words: &[u16], base: usize, p: u16, before: u16, at: u16) -> bool
    requires { base + buffer_width * B_of words.now + buffer_width ≤ length words.now }
    ensures { result ≡ event_step words.now base p before at }
{
    if at > words[header::BUFFERS] {
        return false;
    }
    let start = base + buffer::WORDS * (at as usize);
    if words[start + buffer::PREVIOUS] != before {
        return false;
    }
    belongs(
        words[start + buffer::STANDING],
        words[start + buffer::RECEIVER],
        words[start + buffer::OWNER],
        p,
    )
}

// The buffer behind b in its event queue.
fn next_buffer(words: &[u16], base: usize, b: u16) -> u16
    requires { base + buffer_width * b + buffer_width ≤ length words.now }
    ensures { result ≡ next_buffer words.now base b }
{
    words[base + buffer::WORDS * (b as usize) + buffer::NEXT]
}

// The last of p's event queue.
fn last_event(words: &[u16], p: u16) -> u16
    requires { process_base + process_width * p + process_width ≤ length words.now }
    ensures { result ≡ process_at words.now p process_last }
{
    words[process::BASE + process::WORDS * (p as usize) + process::LAST]
}

// One link of an event queue: whether it is right; if so, what follows, and the links left.
#[derive(Drop)]
struct EventLink {
    right: bool,
    next: u16,
    left: usize,
}

// The link from `before` to `at`, one of the `left` that may be followed.
fn event_link(words: &[u16], base: usize, p: u16, left: usize, at: u16, before: u16) -> EventLink
    requires { (base + buffer_width * B_of words.now + buffer_width ≤ length words.now) × (1 ≤ at) }
    ensures { GoesOn (follow_events words.now base p) left at before result.right result.next result.left }
{
    if left == 0 {
        return EventLink {
            right: false,
            next: 0,
            left: 0,
        };
    }
    if !event_step(words, base, p, before, at) {
        return EventLink {
            right: false,
            next: 0,
            left: 0,
        };
    }
    EventLink {
        right: true,
        next: next_buffer(words, base, at),
        left: left - 1,
    }
}

// p's event queue from `at` on, behind `before`, four links at a time.
fn follow_events(words: &[u16], base: usize, p: u16, left: usize, at: u16, before: u16) -> usize
    requires { (base + buffer_width * B_of words.now + buffer_width ≤ length words.now)
        × ((process_base + process_width * p + process_width ≤ length words.now) × (1 ≤ at)) }
    ensures { result ≡ follow_events words.now base p left at before }
{
    let first = event_link(words, base, p, left, at, before);
    if !first.right {
        return FAILED;
    }
    if first.next == 0 {
        return at_end(first.left, at, last_event(words, p));
    }
    let second = event_link(words, base, p, first.left, first.next, at);
    if !second.right {
        return FAILED;
    }
    if second.next == 0 {
        return at_end(second.left, first.next, last_event(words, p));
    }
    let third = event_link(words, base, p, second.left, second.next, first.next);
    if !third.right {
        return FAILED;
    }
    if third.next == 0 {
        return at_end(third.left, second.next, last_event(words, p));
    }
    let fourth = event_link(words, base, p, third.left, third.next, second.next);
    if !fourth.right {
        return FAILED;
    }
    if fourth.next == 0 {
        return at_end(fourth.left, third.next, last_event(words, p));
    }
    follow_events(words, base, p, fourth.left, fourth.next, third.next)
}

// p's event queue, of at most `left` buffers; most often it is empty.
fn event_queue(words: &[u16], base: usize, p: u16, left: usize) -> usize
    requires { (base + buffer_width * B_of words.now + buffer_width ≤ length words.now)
        × (process_base + process_width * p + process_width ≤ length words.now) }
    ensures { result ≡ event_queue words.now base p left }
{
    let first = words[process::BASE + process::WORDS * (p as usize) + process::FIRST];
    if first == 0 {
        return at_end(left, 0, last_event(words, p));
    }
    follow_events(words, base, p, left, first, 0)
}

// 1 for a process that runs.
fn runs(state: u16) -> usize
    ensures { (result ≡ bit (eqb state state_running)) × (result ≤ 1) }
{
    if state == state::RUNNING { 1 } else { 0 }
}

// All event queues, which hold `queued` buffers together: how many processes run.
pub fn events(words: &[u16], processes: usize, queued: usize) -> usize
    requires { Lent words.now processes (B_of words.now) × (queued ≤ most_buffers) }
    ensures { result ≡ if (eqb (sweep (event_queue words.now (buffer_base + process_width * processes)) processes queued) 0)
        (running words.now processes) failed }
{
    let base = buffer::BASE + process::WORDS * processes;
    let mut running: usize = 0;
    let mut left = queued;
    for i in 0..processes {
        let p = i + 1;
        let start = process::BASE + process::WORDS * p;
        running += runs(words[start + process::STATE]);
        left = event_queue(words, base, p as u16, left);
        if left == FAILED {
            return FAILED;
        }
    }
    if left == 0 { running } else { FAILED }
}

// Process `at` may stand in the running queue behind `before`, whose priority is `priority`.
fn running_step(words: &[u16], before: u16, at: u16, priority: u16) -> bool
    requires { (header_width + process_width * P_of words.now ≤ length words.now) × (priority ≡ limit words.now before) }
    ensures { result ≡ running_step words.now before at }
{
    if at > words[header::PROCESSES] {
        return false;
    }
    let start = process::BASE + process::WORDS * (at as usize);
    if words[start + process::PREVIOUS] != before {
        return false;
    }
    (words[start + process::STATE] == state::RUNNING)
        & (words[start + process::PRIORITY] <= priority)
}

// The process behind p in its queue, be that the running queue or a semaphore's.
pub fn next_process(words: &[u16], p: u16) -> u16
    requires { process_base + process_width * p + process_width ≤ length words.now }
    ensures { result ≡ next_process words.now p }
{
    words[process::BASE + process::WORDS * (p as usize) + process::NEXT]
}

// The priority of p.
fn priority_of(words: &[u16], p: u16) -> u16
    requires { process_base + process_width * p + process_width ≤ length words.now }
    ensures { result ≡ process_at words.now p process_priority }
{
    words[process::BASE + process::WORDS * (p as usize) + process::PRIORITY]
}

// One link of the running queue, with the priority that nobody behind may pass.
#[derive(Drop)]
struct RunningLink {
    right: bool,
    next: u16,
    left: usize,
    priority: u16,
}

// The link from `before`, whose priority is `priority`, to `at`, one of the `left` that may be followed.
fn running_link(words: &[u16], left: usize, at: u16, before: u16, priority: u16) -> RunningLink
    requires { (header_width + process_width * P_of words.now ≤ length words.now) × ((priority ≡ limit words.now before) × (1 ≤ at)) }
    ensures { RunsOn words.now left at before result.right result.next result.left result.priority }
{
    if left == 0 {
        return RunningLink {
            right: false,
            next: 0,
            left: 0,
            priority: 0,
        };
    }
    if !running_step(words, before, at, priority) {
        return RunningLink {
            right: false,
            next: 0,
            left: 0,
            priority: 0,
        };
    }
    RunningLink {
        right: true,
        next: next_process(words, at),
        left: left - 1,
        priority: priority_of(words, at),
    }
}

// The running queue from `at` on, behind `before`, whose priority is `priority`, four links at a time.
pub fn follow_running(words: &[u16], left: usize, at: u16, before: u16, priority: u16) -> usize
    requires { (header_width + process_width * P_of words.now ≤ length words.now) × (priority ≡ limit words.now before) }
    ensures { result ≡ follow_running words.now left at before }
{
    if at == 0 {
        return at_end(left, before, words[header::LAST]);
    }
    let first = running_link(words, left, at, before, priority);
    if !first.right {
        return FAILED;
    }
    if first.next == 0 {
        return at_end(first.left, at, words[header::LAST]);
    }
    let second = running_link(words, first.left, first.next, at, first.priority);
    if !second.right {
        return FAILED;
    }
    if second.next == 0 {
        return at_end(second.left, first.next, words[header::LAST]);
    }
    let third = running_link(words, second.left, second.next, first.next, second.priority);
    if !third.right {
        return FAILED;
    }
    if third.next == 0 {
        return at_end(third.left, second.next, words[header::LAST]);
    }
    let fourth = running_link(words, third.left, third.next, second.next, third.priority);
    if !fourth.right {
        return FAILED;
    }
    if fourth.next == 0 {
        return at_end(fourth.left, third.next, words[header::LAST]);
    }
    follow_running(words, fourth.left, fourth.next, third.next, fourth.priority)
}
