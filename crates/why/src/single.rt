// The clauses on the size, and those whose word is found in a way of its own.
ghost use Rattle.std.specs.Prelude.{◌≤◌};
ghost use Rattle.machine.specs.Numbers.{device_count};
ghost use Rattle.machine.specs.Queue.{Range};
ghost use Rattle.machine.specs.Sound.{P_of, B_of};
ghost use Rattle.why.specs.Clause.{clause_of, many};
ghost use Rattle.why.specs.Clause.{HeaderThere, LongEnough, Edition, HeaderZero, AllGiven, ProcessOff, BufferOff, Free, Device};
ghost use Rattle.why.specs.Looked.{Sized, Looked, Ready};

use crate::fixed::all_given;
use crate::states::{buffer_off, device, free, free_at, process_off, unlinked_at};
use crate::words::{among, buffer_place, named_if, process_place, word};
use crate::{clause, numbers};
use machine::{
    MOST_BUFFERS, MOST_PROCESSES, MOST_SEMAPHORES, buffer, device, header, process, semaphore,
};

// ---- the clauses whose word is found in a way of its own
pub fn edition(words: &[u16], r: usize) -> Option<usize>
    requires { Sized words.now }
    ensures { Looked words.now Edition r result }
{
    named_if(
        word(words, header::EDITION) <= numbers::LAST_EDITION,
        header::EDITION,
    )
}

pub fn header_zero(words: &[u16], r: usize) -> Option<usize>
    requires { Sized words.now × Range 2 r }
    ensures { Looked words.now HeaderZero r result }
{
    let place = header::SEMAPHORES + r;
    named_if(word(words, place) == 0, place)
}

pub fn given_out(words: &[u16], r: usize) -> Option<usize>
    requires { Sized words.now }
    ensures { Looked words.now AllGiven r result }
{
    named_if(all_given(words, r), header::BUFFERS)
}

pub fn process_links(words: &[u16], p: usize) -> Option<usize>
    requires { Sized words.now × Range (P_of words.now) p }
    ensures { Looked words.now ProcessOff p result }
{
    let right = process_off(words, p);
    let place = unlinked_at(words, process_place(words, p, process::NEXT));
    named_if(right, place)
}

pub fn buffer_links(words: &[u16], b: usize) -> Option<usize>
    requires { Sized words.now × Range (B_of words.now) b }
    ensures { Looked words.now BufferOff b result }
{
    let right = buffer_off(words, b);
    let place = unlinked_at(words, buffer_place(words, b, buffer::NEXT));
    named_if(right, place)
}

pub fn free_words(words: &[u16], b: usize) -> Option<usize>
    requires { Sized words.now × Range (B_of words.now) b }
    ensures { Looked words.now Free b result }
{
    let right = free(words, b);
    let place = free_at(words, buffer_place(words, b, buffer::NEXT));
    named_if(right, place)
}

pub fn device_word(words: &[u16], r: usize) -> Option<usize>
    requires { Sized words.now × Range device_count r }
    ensures { Looked words.now Device r result }
{
    named_if(device(words, r), device::FIRST + (r - 1))
}

// There is a header.
fn header(words: &[u16], r: usize) -> Option<usize>
    ensures { Looked words.now HeaderThere r result }
{
    if words.len() < header::WORDS {
        Some(words.len())
    } else {
        None
    }
}

// There are as many words as the header tells.
fn long_enough(words: &[u16], r: usize) -> Option<usize>
    requires { Ready words.now 5 }
    ensures { Looked words.now LongEnough r result }
{
    let used = header::WORDS
        + process::WORDS * word(words, header::PROCESSES)
        + buffer::WORDS * word(words, header::BUFFERS)
        + semaphore::WORDS * word(words, header::SEMAPHORES);
    if used <= words.len() {
        None
    } else {
        Some(words.len())
    }
}

// The clauses 1 to 5, on the size.
#[tactic(auto, unfolding(crate::specs::Clause::clause_of))]
pub fn sizes(words: &[u16], c: usize, r: usize) -> Option<usize>
    requires { Ready words.now c × ((1 ≤ c) × (c ≤ 5)) }
    ensures { Looked words.now (clause_of c) r result }
{
    match c {
        clause::HEADER => header(words, r),
        clause::PROCESSES => named_if(
            among(MOST_PROCESSES, word(words, header::PROCESSES)),
            header::PROCESSES,
        ),
        clause::BUFFERS => named_if(
            word(words, header::BUFFERS) <= MOST_BUFFERS,
            header::BUFFERS,
        ),
        clause::SEMAPHORES => named_if(
            word(words, header::SEMAPHORES) <= MOST_SEMAPHORES,
            header::SEMAPHORES,
        ),
        _ => long_enough(words, r),
    }
}
