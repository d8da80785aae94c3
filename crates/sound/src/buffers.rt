// A buffer by itself; `start` is the index of its word 0.
ghost use Rattle.std.specs.Prelude.{◌≡◌, ◌+◌, ◌≤◌, length, get_or};
ghost use Rattle.machine.specs.Records.{buffer_width, buffer_standing};
ghost use Rattle.machine.specs.Queue.{if};
ghost use Rattle.lists.specs.Counts.{bit};
ghost use Rattle.sound.specs.Buffers.{queued, unlinked, blank, free, received, held, owned, own_buffer};
ghost use Rattle.sound.specs.Queues.{failed};

use crate::queues::FAILED;
use machine::{buffer, standing};

// In no queue.
fn unlinked(words: &[u16], start: usize) -> bool
    requires { start + buffer_width ≤ length words.now }
    ensures { result ≡ unlinked words.now start }
{
    (words[start + buffer::NEXT] == 0) & (words[start + buffer::PREVIOUS] == 0)
}

// Words 5 to 9 are zero: no age, and no message.
fn blank(words: &[u16], start: usize) -> bool
    requires { start + buffer_width ≤ length words.now }
    ensures { result ≡ blank words.now start }
{
    (words[start + buffer::AGE] == 0)
        & ((words[start + buffer::MESSAGE] == 0)
            & ((words[start + buffer::SECOND] == 0)
                & ((words[start + buffer::THIRD] == 0) & (words[start + buffer::FOURTH] == 0))))
}

// The words of a free buffer, but for its receiver.
fn free(words: &[u16], start: usize, standing: u16) -> bool
    requires { start + buffer_width ≤ length words.now }
    ensures { result ≡ free words.now start standing }
{
    (standing == standing::FREE) & (unlinked(words, start) & blank(words, start))
}

// The receiver is one of the processes, and not the owner p.
fn received(receiver: u16, p: u16, processes: u16) -> bool
    ensures { result ≡ received receiver p processes }
{
    (1 <= receiver) & ((receiver <= processes) & (receiver != p))
}

// The words of a buffer that is held or orphaned, but for its receiver.
fn held(words: &[u16], start: usize, standing: u16) -> bool
    requires { start + buffer_width ≤ length words.now }
    ensures { result ≡ held words.now start standing }
{
    ((standing == standing::HELD) | (standing == standing::ORPHANED)) & unlinked(words, start)
}

// p owns it.
fn owned(words: &[u16], start: usize, p: u16) -> bool
    requires { start + buffer_width ≤ length words.now }
    ensures { result ≡ owned words.now start p }
{
    words[start + buffer::OWNER] == p
}

// A buffer of p's that is right but for its queue: 1 if it is in one, 0 if not; else FAILED. That the receiver of a
// queued buffer is one of the processes is told by the event queue that it is found in.
pub fn own_buffer(words: &[u16], start: usize, p: u16, processes: u16) -> usize
    requires { start + buffer_width ≤ length words.now }
    ensures { result ≡ if (own_buffer words.now start p processes) (bit (queued (get_or words.now
        (start + buffer_standing) 0))) failed }
{
    if !owned(words, start, p) {
        return FAILED;
    }
    let standing = words[start + buffer::STANDING];
    let receiver = words[start + buffer::RECEIVER];
    if standing == standing::QUEUED {
        if receiver != p {
            return 1;
        }
        return FAILED;
    }
    if receiver == 0 {
        if free(words, start, standing) {
            return 0;
        }
        return FAILED;
    }
    if !received(receiver, p, processes) {
        return FAILED;
    }
    if standing == standing::ANSWERED {
        return 1;
    }
    if held(words, start, standing) {
        return 0;
    }
    FAILED
}
