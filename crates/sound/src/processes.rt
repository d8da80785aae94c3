// A process by itself; `start` is the index of its word 0. Buffer b begins at base + 10 b.
ghost use Rattle.std.specs.Prelude.{◌≡◌, ◌+◌, ◌*◌, ◌<◌, ◌≤◌, length};
ghost use Rattle.machine.specs.Numbers.{most_processes};
ghost use Rattle.machine.specs.Records.{header_width, process_base, process_width, buffer_width};
ghost use Rattle.sound.specs.Processes.{prioritized, off, unawaiting, quiet, state_legal, awaits_own, named_by, waits_legal, words_legal};
ghost use Rattle.sound.specs.Processes.{raised_legal, lowers_legal, begins, owns_legal, process_legal};

use machine::{buffer, device, header, process, reason, standing, state};
use name::name_ok;

// Devices go by their number plus 1.
const LAST_DEVICE: u16 = device::COUNT as u16;

// Its priority is in range.
fn prioritized(words: &[u16], start: usize) -> bool
    requires { start + process_width ≤ length words.now }
    ensures { result ≡ prioritized words.now start }
{
    let priority = words[start + process::PRIORITY];
    (1 <= priority) & (priority <= process::MOST_PRIORITY)
}

// No reason, in no queue.
fn off(words: &[u16], start: usize) -> bool
    requires { start + process_width ≤ length words.now }
    ensures { result ≡ off words.now start }
{
    (words[start + process::REASON] == reason::NONE)
        & ((words[start + process::NEXT] == 0) & (words[start + process::PREVIOUS] == 0))
}

// Waits for no buffer and no device.
fn unawaiting(words: &[u16], start: usize) -> bool
    requires { start + process_width ≤ length words.now }
    ensures { result ≡ unawaiting words.now start }
{
    (words[start + process::AWAITED] == 0) & (words[start + process::DEVICE] == 0)
}

// Nor for a delay to run out.
fn quiet(words: &[u16], start: usize) -> bool
    requires { start + process_width ≤ length words.now }
    ensures { result ≡ quiet words.now start }
{
    (words[start + process::DELAY] == 0) & unawaiting(words, start)
}

// What a state but 5, with a reason but 5, asks of the other words, but for what is waited for.
fn state_legal(words: &[u16], start: usize) -> bool
    requires { start + process_width ≤ length words.now }
    ensures { result ≡ state_legal words.now start }
{
    let state = words[start + process::STATE];
    if state == state::RUNNING {
        return (words[start + process::REASON] <= reason::INTERRUPT) & quiet(words, start);
    }
    if !off(words, start) {
        return false;
    }
    if state == state::STOPPED {
        return quiet(words, start);
    }
    if state == state::WAITS_EVENT {
        return (words[start + process::FIRST] == 0) & unawaiting(words, start);
    }
    if state == state::WAITS_ANSWER {
        return (words[start + process::DELAY] == 0) & (words[start + process::DEVICE] == 0);
    }
    (state == state::WAITS_INTERRUPT) & (words[start + process::AWAITED] == 0)
}

// Buffer b is one of the buffers, is p's, and is queued or held.
fn awaits_own(words: &[u16], base: usize, buffers: usize, p: u16, b: u16) -> bool
    requires { base + buffer_width * buffers + buffer_width ≤ length words.now }
    ensures { result ≡ awaits_own words.now base buffers p b }
{
    if b < 1 {
        return false;
    }
    if b as usize > buffers {
        return false;
    }
    let start = base + buffer::WORDS * (b as usize);
    let standing = words[start + buffer::STANDING];
    (words[start + buffer::OWNER] == p)
        & ((standing::QUEUED <= standing) & (standing <= standing::HELD))
}

// There is a device d - 1, and it names p.
fn named_by(words: &[u16], p: u16, d: u16) -> bool
    requires { header_width ≤ length words.now }
    ensures { result ≡ named_by words.now p d }
{
    if d < 1 {
        return false;
    }
    if d > LAST_DEVICE {
        return false;
    }
    words[device::BASE + (d as usize)] == p
}

// What is waited for in states 3 and 4.
fn waits_legal(words: &[u16], base: usize, buffers: usize, p: u16, start: usize) -> bool
    requires { (base + buffer_width * buffers + buffer_width ≤ length words.now) × ((header_width ≤ length words.now)
        × (start + process_width ≤ length words.now)) }
    ensures { result ≡ waits_legal words.now base buffers p start }
{
    let state = words[start + process::STATE];
    if state == state::WAITS_ANSWER {
        return awaits_own(words, base, buffers, p, words[start + process::AWAITED]);
    }
    if state == state::WAITS_INTERRUPT {
        return named_by(words, p, words[start + process::DEVICE]);
    }
    true
}

// A process that runs since a RAISE woke it.
fn raised_legal(words: &[u16], start: usize) -> bool
    requires { start + process_width ≤ length words.now }
    ensures { result ≡ raised_legal words.now start }
{
    (words[start + process::STATE] == state::RUNNING)
        & ((words[start + process::REASON] == reason::RAISE) & quiet(words, start))
}

// A process that names a semaphore waits for it, one that there is, and for nothing else.
fn lowers_legal(words: &[u16], start: usize) -> bool
    requires { (header_width ≤ length words.now) × (start + process_width ≤ length words.now) }
    ensures { result ≡ lowers_legal words.now start }
{
    (words[start + process::STATE] == state::WAITS_SEMAPHORE)
        & ((words[start + process::SEMAPHORE] <= words[header::SEMAPHORES])
            & ((words[start + process::REASON] == reason::NONE) & quiet(words, start)))
}

// The words of process p, but for its name, own buffers and queues. Reason 5 is seldom, and asked for where the others fail.
fn words_legal(words: &[u16], base: usize, buffers: usize, p: u16, start: usize) -> bool
    requires { (base + buffer_width * buffers + buffer_width ≤ length words.now) × ((header_width ≤ length words.now)
        × (start + process_width ≤ length words.now)) }
    ensures { result ≡ words_legal words.now base buffers p start }
{
    if !prioritized(words, start) {
        return false;
    }
    if words[start + process::SEMAPHORE] != 0 {
        return lowers_legal(words, start);
    }
    if !state_legal(words, start) {
        return raised_legal(words, start);
    }
    waits_legal(words, base, buffers, p, start)
}

// Own buffers begin behind those given before; 0 for none.
fn begins(first: usize, count: usize, before: usize) -> bool
    requires { before < 65536 }
    ensures { result ≡ begins first count before }
{
    if count == 0 {
        return first == 0;
    }
    first == before + 1
}

// Own buffers, of which there are enough.
fn owns_legal(first: u16, count: u16, before: usize, buffers: usize) -> bool
    requires { before < 65536 }
    ensures { result ≡ owns_legal first count before buffers }
{
    begins(first as usize, count as usize, before) & (before + (count as usize) <= buffers)
}

// Process p, but for its queues and the other names; the processes before it own `before` of the buffers.
pub fn process_legal(words: &[u16], base: usize, buffers: usize, p: usize, before: usize) -> bool
    requires { (base + buffer_width * buffers + buffer_width ≤ length words.now)
        × ((process_base + process_width * p + process_width ≤ length words.now) × ((1 ≤ p) × ((p ≤ most_processes) × (before < 65536)))) }
    ensures { result ≡ process_legal words.now base buffers p before }
{
    let start = process::BASE + process::WORDS * p;
    if !words_legal(words, base, buffers, p as u16, start) {
        return false;
    }
    if !name_ok(
        words[start + process::NAME],
        words[start + (process::NAME + 1)],
        words[start + (process::NAME + 2)],
    ) {
        return false;
    }
    owns_legal(
        words[start + process::FIRST_OWN],
        words[start + process::OWNS],
        before,
        buffers,
    )
}
