// The queues of each kind, by what each record says of itself and of its neighbour. A
// function gives nothing for what is right, else the place of the word that is named.
ghost use Rattle.std.specs.Prelude.{◌≡◌, true, ◌+◌, ◌≤◌, ◌<◌, length};
ghost use Rattle.machine.specs.Numbers.{most_buffers};
ghost use Rattle.machine.specs.Queue.{Range};
ghost use Rattle.why.specs.QueueParts.{queues, belongs, housed, meets, First, Last, Start, Next, Back, Met};
ghost use Rattle.why.specs.Clause.{Queue};
ghost use Rattle.why.specs.Looked.{number_of_kind, Sized, HasRecord, Heads, Looked, EndsWith, ComesBack};

use crate::numbers;
use crate::words::{
    among, buffer_place, buffer_word, named_if, process_place, process_word, semaphore_place, word,
};
use machine::{buffer, header, process, semaphore};

// Which queues: the running queue, the event queues of the processes, or those that wait for a semaphore.
#[derive(Clone, Copy)]
pub enum Kind {
    Running,
    Events,
    Semaphores,
}

// How many records queues of that kind have.
fn records(words: &[u16], kind: Kind) -> usize
    requires { Sized words.now }
    ensures { (result ≡ (queues words.now (number_of_kind kind)).records) × (result ≤ most_buffers) }
{
    match kind {
        Kind::Running | Kind::Semaphores => word(words, header::PROCESSES),
        Kind::Events => word(words, header::BUFFERS),
    }
}

// How many queues of that kind there are.
fn number(words: &[u16], kind: Kind) -> usize
    requires { Sized words.now }
    ensures { result ≡ (queues words.now (number_of_kind kind)).number }
{
    match kind {
        Kind::Running => 1,
        Kind::Events => word(words, header::PROCESSES),
        Kind::Semaphores => word(words, header::SEMAPHORES),
    }
}

// The queue in which record x belongs, 0 for none.
pub fn home(words: &[u16], kind: Kind, x: usize) -> usize
    requires { HasRecord words.now (number_of_kind kind) x }
    ensures { result ≡ (queues words.now (number_of_kind kind)).home x }
{
    match kind {
        Kind::Running => match process_word(words, x, process::STATE) {
            numbers::RUNNING => 1,
            _ => 0,
        },
        Kind::Events => match buffer_word(words, x, buffer::STANDING) {
            numbers::QUEUED => buffer_word(words, x, buffer::RECEIVER),
            numbers::ANSWERED => buffer_word(words, x, buffer::OWNER),
            _ => 0,
        },
        Kind::Semaphores => match process_word(words, x, process::STATE) {
            numbers::WAITS_SEMAPHORE => process_word(words, x, process::SEMAPHORE),
            _ => 0,
        },
    }
}

// The place of x's next; that of its previous is one behind.
fn links(words: &[u16], kind: Kind, x: usize) -> usize
    requires { HasRecord words.now (number_of_kind kind) x }
    ensures { (result ≡ (queues words.now (number_of_kind kind)).links x) × ((result + 1 < length words.now) × (result ≤ 2000)) }
{
    match kind {
        Kind::Running | Kind::Semaphores => process_place(words, x, process::NEXT),
        Kind::Events => buffer_place(words, x, buffer::NEXT),
    }
}

// The place of the first of queue h; that of its last is one behind.
fn ends(words: &[u16], kind: Kind, h: usize) -> usize
    requires { Heads words.now (number_of_kind kind) h }
    ensures { (result ≡ (queues words.now (number_of_kind kind)).ends h) × ((result + 1 < length words.now) × (result ≤ 2000)) }
{
    match kind {
        Kind::Running => header::FIRST,
        Kind::Events => process_place(words, h, process::FIRST),
        Kind::Semaphores => semaphore_place(words, h, semaphore::FIRST),
    }
}

// x is none, or a record that belongs in queue h.
fn belongs(words: &[u16], kind: Kind, h: usize, x: usize) -> bool
    requires { Sized words.now }
    ensures { result ≡ belongs (queues words.now (number_of_kind kind)) h x }
{
    if x == 0 {
        return true;
    }
    if x > records(words, kind) {
        return false;
    }
    home(words, kind, x) == h
}

// Record x belongs in a queue that there is.
fn housed(words: &[u16], kind: Kind, x: usize) -> bool
    requires { HasRecord words.now (number_of_kind kind) x }
    ensures { result ≡ housed (queues words.now (number_of_kind kind)) x }
{
    among(number(words, kind), home(words, kind, x))
}

// x is met where a queue is followed from `at`, for at most as many records as there are.
fn meets(words: &[u16], kind: Kind, at: usize, x: usize) -> bool
    requires { Sized words.now }
    ensures { result ≡ meets (queues words.now (number_of_kind kind)) (queues words.now (number_of_kind kind)).records at x }
{
    let most = records(words, kind);
    let mut here = at;
    for _ in 0..most {
        if !among(most, here) {
            return false;
        }
        if here == x {
            return true;
        }
        here = word(words, links(words, kind, here));
    }
    false
}

// The first of queue h belongs there, or is none.
pub fn first(words: &[u16], kind: Kind, h: usize) -> Option<usize>
    requires { Heads words.now (number_of_kind kind) h }
    ensures { Looked words.now (Queue (number_of_kind kind) First) h result }
{
    let place = ends(words, kind, h);
    let right = belongs(words, kind, h, word(words, place));
    named_if(right, place)
}

// The last of queue h belongs there, or is none.
pub fn last(words: &[u16], kind: Kind, h: usize) -> Option<usize>
    requires { Heads words.now (number_of_kind kind) h }
    ensures { Looked words.now (Queue (number_of_kind kind) Last) h result }
{
    let place = ends(words, kind, h) + 1;
    let right = belongs(words, kind, h, word(words, place));
    named_if(right, place)
}

// Before the first of queue h there is none.
pub fn start(words: &[u16], kind: Kind, h: usize) -> Option<usize>
    requires { Heads words.now (number_of_kind kind) h }
    ensures { Looked words.now (Queue (number_of_kind kind) Start) h result }
{
    let first = word(words, ends(words, kind, h));
    if !among(records(words, kind), first) {
        return None;
    }
    let place = links(words, kind, first) + 1;
    named_if(word(words, place) == 0, place)
}

// What is behind record x belongs in its queue, or is none.
pub fn next(words: &[u16], kind: Kind, x: usize) -> Option<usize>
    requires { HasRecord words.now (number_of_kind kind) x }
    ensures { Looked words.now (Queue (number_of_kind kind) Next) x result }
{
    if !housed(words, kind, x) {
        return None;
    }
    let place = links(words, kind, x);
    let right = belongs(words, kind, home(words, kind, x), word(words, place));
    named_if(right, place)
}

// Record x is the last of its queue.
fn ends_with(words: &[u16], kind: Kind, x: usize) -> Option<usize>
    requires { HasRecord words.now (number_of_kind kind) x × (housed (queues words.now (number_of_kind kind)) x ≡ true) }
    ensures { EndsWith words.now (number_of_kind kind) x result }
{
    let place = ends(words, kind, home(words, kind, x)) + 1;
    named_if(word(words, place) == x, place)
}

// The previous of record y is x.
fn comes_back(words: &[u16], kind: Kind, x: usize, y: usize) -> Option<usize>
    requires { HasRecord words.now (number_of_kind kind) y }
    ensures { ComesBack words.now (number_of_kind kind) x y result }
{
    let place = links(words, kind, y) + 1;
    named_if(word(words, place) == x, place)
}

// What is behind record x comes back to it; behind the last there is none.
pub fn back(words: &[u16], kind: Kind, x: usize) -> Option<usize>
    requires { HasRecord words.now (number_of_kind kind) x }
    ensures { Looked words.now (Queue (number_of_kind kind) Back) x result }
{
    if !housed(words, kind, x) {
        return None;
    }
    let next = word(words, links(words, kind, x));
    if next == 0 {
        return ends_with(words, kind, x);
    }
    if next > records(words, kind) {
        return None;
    }
    comes_back(words, kind, x, next)
}

// Record x is met where its queue is followed.
pub fn met(words: &[u16], kind: Kind, x: usize) -> Option<usize>
    requires { HasRecord words.now (number_of_kind kind) x }
    ensures { Looked words.now (Queue (number_of_kind kind) Met) x result }
{
    if !housed(words, kind, x) {
        return None;
    }
    let first = word(words, ends(words, kind, home(words, kind, x)));
    let right = meets(words, kind, first, x);
    named_if(right, links(words, kind, x))
}
