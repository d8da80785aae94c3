// All records but for their queues: the processes in order, each with its own buffers.
ghost use Rattle.std.specs.Prelude.{◌≡◌, ◌+◌};
ghost use Rattle.machine.specs.Queue.{if};
ghost use Rattle.machine.specs.Sound.{B_of};
ghost use Rattle.sound.specs.Queues.{failed};
ghost use Rattle.sound.specs.Records.{Lent, RunAsked, OwnAsked, base_of, owns, own_run, own_legal, queued_of, records};

use crate::buffers::own_buffer;
use crate::header::word;
use crate::names::{apart, mark};
use crate::processes::process_legal;
use crate::queues::FAILED;
use machine::{buffer, process};

// The `count` buffers behind `before` others, all p's: `sum` with those of them that are queued, or FAILED.
fn own_run(
    words: &[u16],
    base: usize,
    p: u16,
    processes: u16,
    before: usize,
    count: usize,
    sum: usize,
) -> usize
    requires { RunAsked words.now base before count sum }
    ensures { result ≡ if (own_run words.now base p processes before count) (queued_of words.now base (before + count)) failed }
{
    let mut queued = sum;
    for j in 0..count {
        let start = base + buffer::WORDS * (before + (j + 1));
        let here = own_buffer(words, start, p, processes);
        if here == FAILED {
            return FAILED;
        }
        queued += here;
    }
    queued
}

// The name of process p against those before it, and p's own buffers: `sum` with those of them that are queued, or FAILED.
fn own_record(
    words: &[u16],
    base: usize,
    processes: usize,
    p: usize,
    before: usize,
    met: u8,
    sum: usize,
) -> usize
    requires { OwnAsked words.now base processes p before met sum }
    ensures { result ≡ if (own_legal words.now base processes p before) (queued_of words.now base
        (before + owns words.now p)) failed }
{
    if !apart(words, met, p) {
        return FAILED;
    }
    own_run(
        words,
        base,
        p as u16,
        processes as u16,
        before,
        word(words, process::BASE + process::WORDS * p + process::OWNS),
        sum,
    )
}

// All processes with their own buffers: how many buffers are queued, or FAILED.
pub fn records(words: &[u16], processes: usize, buffers: usize) -> usize
    requires { Lent words.now processes buffers }
    ensures { result ≡ if (records words.now) (queued_of words.now (base_of words.now)
        (B_of words.now)) failed }
{
    let base = buffer::BASE + process::WORDS * processes;
    let mut before: usize = 0;
    let mut queued: usize = 0;
    let mut marks: [u8; 256] = [0; 256];
    for i in 0..processes {
        let p = i + 1;
        if !process_legal(words, base, buffers, p, before) {
            return FAILED;
        }
        let own_mark = mark(words, p);
        queued = own_record(words, base, processes, p, before, marks[own_mark], queued);
        if queued == FAILED {
            return FAILED;
        }
        marks[own_mark] = 1;
        before += word(words, process::BASE + process::WORDS * p + process::OWNS);
    }
    if before == buffers { queued } else { FAILED }
}
