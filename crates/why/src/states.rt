// Processes, buffers, semaphores and devices, a test for each clause; p, b and s are the numbers of a process, a buffer and a semaphore, and a device
// goes by its number plus 1, as in a process's word 8.
ghost use Rattle.std.specs.Prelude.{◌≡◌, not, ◌||◌, ◌+◌, ◌≤◌, ◌<◌, length, leb};
ghost use Rattle.machine.specs.Numbers.{most_processes, device_count};
ghost use Rattle.machine.specs.Records.{process_priority, buffer_width};
ghost use Rattle.machine.specs.Queue.{Range};
ghost use Rattle.machine.specs.Sound.{P_of, B_of, S_of, process_at};
ghost use Rattle.why.specs.QueueParts.{among};
ghost use Rattle.why.specs.Looked.{Sized};
ghost use Rattle.why.specs.Asked.{awaits, named_by, waits, waiting, counter_right, unlinked_at, free_at};
ghost use Rattle.why.specs.Clause.{right, PriorityFalls, ProcessOff, BufferOff, Standing, Free, Receiver, Counter, State, Reason, NoReason};
ghost use Rattle.why.specs.Clause.{SemaphoreWait, EventWait, AnswerWait, InterruptWait, Delay, Device};

use crate::numbers;
use crate::queues::{Kind, home};
use crate::words::{among, buffer_word, process_word, semaphore_word, word};
use machine::{buffer, device, edition, header, process, semaphore};

// The priority of process p, if there is one of that number, is at most `rank`.
fn at_most(words: &[u16], p: usize, rank: usize) -> bool
    requires { Sized words.now }
    ensures { result ≡ (not (among (P_of words.now) p) || leb (process_at words.now p process_priority) rank) }
{
    if !among(word(words, header::PROCESSES), p) {
        return true;
    }
    process_word(words, p, process::PRIORITY) <= rank
}

pub fn priority_falls(words: &[u16], p: usize) -> bool
    requires { Sized words.now × Range (P_of words.now) p }
    ensures { result ≡ right words.now PriorityFalls p }
{
    let state = process_word(words, p, process::STATE);
    let next = process_word(words, p, process::NEXT);
    (state != numbers::RUNNING) || at_most(words, next, process_word(words, p, process::PRIORITY))
}

pub fn process_off(words: &[u16], p: usize) -> bool
    requires { Sized words.now × Range (P_of words.now) p }
    ensures { result ≡ right words.now ProcessOff p }
{
    let state = process_word(words, p, process::STATE);
    let next = process_word(words, p, process::NEXT);
    let previous = process_word(words, p, process::PREVIOUS);
    (state == numbers::RUNNING)
        || ((state == numbers::WAITS_SEMAPHORE) || ((next == 0) && (previous == 0)))
}

pub fn buffer_off(words: &[u16], b: usize) -> bool
    requires { Sized words.now × Range (B_of words.now) b }
    ensures { result ≡ right words.now BufferOff b }
{
    let standing = buffer_word(words, b, buffer::STANDING);
    let next = buffer_word(words, b, buffer::NEXT);
    let previous = buffer_word(words, b, buffer::PREVIOUS);
    (standing == numbers::QUEUED)
        || ((standing == numbers::ANSWERED) || ((next == 0) && (previous == 0)))
}

// Of a record's words 0 and 1, the place of the first that isn't zero.
pub fn unlinked_at(words: &[u16], start: usize) -> usize
    requires { (start < length words.now) × (start ≤ 2000) }
    ensures { (result ≡ unlinked_at words.now start) × (result ≤ start + 1) }
{
    if word(words, start) == 0 {
        return start + 1;
    }
    start
}

pub fn standing(words: &[u16], b: usize) -> bool
    requires { Sized words.now × Range (B_of words.now) b }
    ensures { result ≡ right words.now Standing b }
{
    buffer_word(words, b, buffer::STANDING) <= numbers::ORPHANED
}

pub fn free(words: &[u16], b: usize) -> bool
    requires { Sized words.now × Range (B_of words.now) b }
    ensures { result ≡ right words.now Free b }
{
    let standing = buffer_word(words, b, buffer::STANDING);
    let receiver = buffer_word(words, b, buffer::RECEIVER);
    let age = buffer_word(words, b, buffer::AGE);
    let first = buffer_word(words, b, buffer::MESSAGE);
    let second = buffer_word(words, b, buffer::SECOND);
    let third = buffer_word(words, b, buffer::THIRD);
    let fourth = buffer_word(words, b, buffer::FOURTH);
    (standing != numbers::FREE)
        || ((receiver == 0)
            && ((age == 0) && ((first == 0) && ((second == 0) && ((third == 0) && (fourth == 0))))))
}

// Of the words 3 and 5 to 9 of a free buffer, the place of the first that isn't zero.
pub fn free_at(words: &[u16], start: usize) -> usize
    requires { (start + buffer_width ≤ length words.now) × (start ≤ 2000) }
    ensures { (result ≡ free_at words.now start) × (result ≤ start + 9) }
{
    if word(words, start + buffer::RECEIVER) != 0 {
        return start + buffer::RECEIVER;
    }
    if word(words, start + buffer::AGE) != 0 {
        return start + buffer::AGE;
    }
    if word(words, start + buffer::MESSAGE) != 0 {
        return start + buffer::MESSAGE;
    }
    if word(words, start + buffer::SECOND) != 0 {
        return start + buffer::SECOND;
    }
    if word(words, start + buffer::THIRD) != 0 {
        return start + buffer::THIRD;
    }
    start + buffer::FOURTH
}

pub fn receiver(words: &[u16], b: usize) -> bool
    requires { Sized words.now × Range (B_of words.now) b }
    ensures { result ≡ right words.now Receiver b }
{
    let standing = buffer_word(words, b, buffer::STANDING);
    let receiver = buffer_word(words, b, buffer::RECEIVER);
    let owner = buffer_word(words, b, buffer::OWNER);
    (standing == numbers::FREE)
        || (among(word(words, header::PROCESSES), receiver) && (receiver != owner))
}

// How many processes wait for semaphore s.
fn waiting(words: &[u16], s: usize) -> usize
    requires { Sized words.now }
    ensures { (result ≡ waiting words.now s) × (result ≤ most_processes) }
{
    let processes = word(words, header::PROCESSES);
    let mut count: usize = 0;
    for p in 1..=processes {
        if home(words, Kind::Semaphores, p) == s {
            count += 1;
        }
    }
    count
}

// A counter's word, where n wait.
fn counter_right(c: usize, n: usize) -> bool
    requires { (c < 65536) × (n ≤ most_processes) }
    ensures { result ≡ counter_right c n }
{
    (c <= 65535)
        && ((!(numbers::BELOW_ZERO <= c) || (c + n == 65536))
            && ((numbers::BELOW_ZERO <= c) || (n == 0)))
}

pub fn counter(words: &[u16], s: usize) -> bool
    requires { Sized words.now × Range (S_of words.now) s }
    ensures { result ≡ right words.now Counter s }
{
    counter_right(
        semaphore_word(words, s, semaphore::COUNTER),
        waiting(words, s),
    )
}

pub fn state(words: &[u16], p: usize) -> bool
    requires { Sized words.now × Range (P_of words.now) p }
    ensures { result ≡ right words.now State p }
{
    process_word(words, p, process::STATE) <= numbers::WAITS_SEMAPHORE
}

pub fn reason(words: &[u16], p: usize) -> bool
    requires { Sized words.now × Range (P_of words.now) p }
    ensures { result ≡ right words.now Reason p }
{
    let reason = process_word(words, p, process::REASON);
    (reason <= numbers::LAST_REASON) && (reason != numbers::UNUSED_REASON)
}

pub fn no_reason(words: &[u16], p: usize) -> bool
    requires { Sized words.now × Range (P_of words.now) p }
    ensures { result ≡ right words.now NoReason p }
{
    let state = process_word(words, p, process::STATE);
    let reason = process_word(words, p, process::REASON);
    (state == numbers::RUNNING) || (reason == numbers::NO_REASON)
}

pub fn semaphore_wait(words: &[u16], p: usize) -> bool
    requires { Sized words.now × Range (P_of words.now) p }
    ensures { result ≡ right words.now SemaphoreWait p }
{
    let state = process_word(words, p, process::STATE);
    let semaphore = process_word(words, p, process::SEMAPHORE);
    let there = among(word(words, header::SEMAPHORES), semaphore);
    ((state != numbers::WAITS_SEMAPHORE) || there)
        && ((state == numbers::WAITS_SEMAPHORE) || (semaphore == 0))
}

pub fn event_wait(words: &[u16], p: usize) -> bool
    requires { Sized words.now × Range (P_of words.now) p }
    ensures { result ≡ right words.now EventWait p }
{
    let state = process_word(words, p, process::STATE);
    let first = process_word(words, p, process::FIRST);
    (state != numbers::WAITS_EVENT) || (first == 0)
}

// b is one of the buffers, is p's, and is queued or held.
fn awaits(words: &[u16], b: usize, p: usize) -> bool
    requires { Sized words.now }
    ensures { result ≡ awaits words.now b p }
{
    if !among(word(words, header::BUFFERS), b) {
        return false;
    }
    let owner = buffer_word(words, b, buffer::OWNER);
    let standing = buffer_word(words, b, buffer::STANDING);
    (owner == p) && ((numbers::QUEUED <= standing) && (standing <= numbers::HELD))
}

pub fn answer_wait(words: &[u16], p: usize) -> bool
    requires { Sized words.now × Range (P_of words.now) p }
    ensures { result ≡ right words.now AnswerWait p }
{
    let state = process_word(words, p, process::STATE);
    let awaited = process_word(words, p, process::AWAITED);
    ((state != numbers::WAITS_ANSWER) || awaits(words, awaited, p))
        && ((state == numbers::WAITS_ANSWER) || (awaited == 0))
}

// There is a device of that number, and it names p.
fn named_by(words: &[u16], device: usize, p: usize) -> bool
    requires { Sized words.now }
    ensures { result ≡ named_by words.now device p }
{
    if !among(device::COUNT, device) {
        return false;
    }
    word(words, device::FIRST + (device - 1)) == p
}

pub fn interrupt_wait(words: &[u16], p: usize) -> bool
    requires { Sized words.now × Range (P_of words.now) p }
    ensures { result ≡ right words.now InterruptWait p }
{
    let state = process_word(words, p, process::STATE);
    let device = process_word(words, p, process::DEVICE);
    ((state != numbers::WAITS_INTERRUPT) || named_by(words, device, p))
        && ((state == numbers::WAITS_INTERRUPT) || (device == 0))
}

pub fn delay(words: &[u16], p: usize) -> bool
    requires { Sized words.now × Range (P_of words.now) p }
    ensures { result ≡ right words.now Delay p }
{
    let state = process_word(words, p, process::STATE);
    let delay = process_word(words, p, process::DELAY);
    (state == numbers::WAITS_EVENT) || ((state == numbers::WAITS_INTERRUPT) || (delay == 0))
}

// p is one of the processes, and waits for that device.
fn waits(words: &[u16], p: usize, device: usize) -> bool
    requires { Sized words.now }
    ensures { result ≡ waits words.now p device }
{
    if !among(word(words, header::PROCESSES), p) {
        return false;
    }
    let state = process_word(words, p, process::STATE);
    let waited = process_word(words, p, process::DEVICE);
    (state == numbers::WAITS_INTERRUPT) && (waited == device)
}

pub fn device(words: &[u16], r: usize) -> bool
    requires { Sized words.now × Range device_count r }
    ensures { result ≡ right words.now Device r }
{
    let named = word(words, device::FIRST + (r - 1));
    let keeps = named == (device::KEPT as usize);
    let keeping = word(words, header::EDITION) == (edition::SECOND as usize);
    (!keeps || keeping) && ((named == 0) || (keeps || waits(words, named, r)))
}
