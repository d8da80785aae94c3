// The semaphores: each counter against the queue of those that wait for it; `start` is the index of a semaphore's word 0.
ghost use Rattle.std.specs.Prelude.{◌≡◌, ◌+◌, ◌*◌, ◌≤◌, length, get_or};
ghost use Rattle.machine.specs.Numbers.{most_processes};
ghost use Rattle.machine.specs.Records.{header_width, process_width, semaphore_width, semaphore_first, semaphore_last};
ghost use Rattle.machine.specs.Sound.{P_of};
ghost use Rattle.sound.specs.Semaphores.{waiter_step, follow_waiters, semaphore_queue, lowering, semaphore_queues, SizedTable};

use crate::header::word;
use crate::queues::{FAILED, at_end, next_process};
use counter::waiting_is;
use machine::{buffer, header, process, semaphore, state};

// Process `at` may stand in the queue of semaphore s behind `before`.
fn waiter_step(words: &[u16], s: u16, before: u16, at: u16) -> bool
    requires { header_width + process_width * P_of words.now ≤ length words.now }
    ensures { result ≡ waiter_step words.now s before at }
{
    if at > words[header::PROCESSES] {
        return false;
    }
    let start = process::BASE + process::WORDS * (at as usize);
    if words[start + process::PREVIOUS] != before {
        return false;
    }
    words[start + process::STATE] == state::WAITS_SEMAPHORE
        && words[start + process::SEMAPHORE] == s
}

// The queue of semaphore s, which ends with `last`, from `at` on, behind `before`.
fn follow_waiters(words: &[u16], s: u16, last: u16, left: usize, at: u16, before: u16) -> usize
    requires { header_width + process_width * P_of words.now ≤ length words.now }
    ensures { result ≡ follow_waiters words.now s last left at before }
{
    if at == 0 {
        return at_end(left, before, last);
    }
    if left == 0 {
        return FAILED;
    }
    if !waiter_step(words, s, before, at) {
        return FAILED;
    }
    follow_waiters(words, s, last, left - 1, next_process(words, at), at)
}

// The queue of semaphore s, of at most `left` processes; most often nobody waits.
fn waiters(words: &[u16], start: usize, s: u16, left: usize) -> usize
    requires { (header_width + process_width * P_of words.now ≤ length words.now) × (start + semaphore_width ≤ length words.now) }
    ensures { result ≡ follow_waiters words.now s (get_or words.now (start + semaphore_last) 0) left (get_or words.now
        (start + semaphore_first) 0) 0 }
{
    let first = words[start + semaphore::FIRST];
    let last = words[start + semaphore::LAST];
    if first == 0 {
        return at_end(left, 0, last);
    }
    follow_waiters(words, s, last, left, first, 0)
}

// Semaphore s: the links that its queue leaves, where its counter counts those in it and its last word is zero; else FAILED.
fn semaphore_queue(words: &[u16], start: usize, s: u16, left: usize) -> usize
    requires { (header_width + process_width * P_of words.now ≤ length words.now) × ((start + semaphore_width ≤ length words.now)
        × (left ≤ most_processes)) }
    ensures { result ≡ semaphore_queue words.now start s left }
{
    if words[start + semaphore::ZERO] != 0 {
        return FAILED;
    }
    let after = waiters(words, start, s, left);
    if after == FAILED {
        return FAILED;
    }
    if !waiting_is(words[start + semaphore::COUNTER], (left - after) as u16) {
        return FAILED;
    }
    after
}

// How many processes wait for a semaphore.
fn lowering(words: &[u16], processes: usize) -> usize
    requires { (header_width + process_width * processes ≤ length words.now) × (processes ≤ most_processes) }
    ensures { (result ≡ lowering words.now processes) × (result ≤ processes) }
{
    let mut waiting: usize = 0;
    for i in 0..processes {
        let p = i + 1;
        if words[process::BASE + process::WORDS * p + process::STATE] == state::WAITS_SEMAPHORE {
            waiting += 1;
        }
    }
    waiting
}

// All semaphores, whose queues hold together those that wait for one.
pub fn semaphore_queues(words: &[u16]) -> bool
    requires { SizedTable words.now }
    ensures { result ≡ semaphore_queues words.now }
{
    let semaphores = word(words, header::SEMAPHORES);
    if semaphores == 0 {
        return true;
    }
    let processes = word(words, header::PROCESSES);
    let base = semaphore::BASE
        + process::WORDS * processes
        + buffer::WORDS * word(words, header::BUFFERS);
    let mut left = lowering(words, processes);
    for i in 0..semaphores {
        let s = i + 1;
        left = semaphore_queue(words, base + semaphore::WORDS * s, s as u16, left);
        if left == FAILED {
            return false;
        }
    }
    left == 0
}
