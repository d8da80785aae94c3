// The words as numbers to count with, and what is found at a record.
ghost use Rattle.std.specs.Prelude.{◌≡◌, ◌+◌, ◌≤◌, ◌<◌, length, get_or};
ghost use Rattle.machine.specs.Records.{process_width, buffer_width, semaphore_width};
ghost use Rattle.machine.specs.Queue.{Range};
ghost use Rattle.machine.specs.Sound.{P_of, B_of, S_of, process_at, buffer_at, semaphore_at};
ghost use Rattle.why.specs.QueueParts.{among};
ghost use Rattle.machine.specs.Words.{Process, Buffer, Semaphore};
ghost use Rattle.why.specs.Asked.{place_in};
ghost use Rattle.why.specs.Looked.{named_if, Low, Sized};

use machine::{buffer, header, process, semaphore};

// Word i.
pub fn word(words: &[u16], i: usize) -> usize
    requires { i < length words.now }
    ensures { (result ≡ get_or words.now i 0) × (result < 65536) }
{
    words[i] as usize
}

// Word f of process p.
pub fn process_word(words: &[u16], p: usize, f: usize) -> usize
    requires { Sized words.now × (Range (P_of words.now) p × (f < process_width)) }
    ensures { (result ≡ process_at words.now p f) × (result < 65536) }
{
    word(words, process::BASE + process::WORDS * p + f)
}

// Word g of buffer b.
pub fn buffer_word(words: &[u16], b: usize, g: usize) -> usize
    requires { Sized words.now × (Range (B_of words.now) b × (g < buffer_width)) }
    ensures { (result ≡ buffer_at words.now b g) × (result < 65536) }
{
    let processes = word(words, header::PROCESSES);
    word(
        words,
        buffer::BASE + process::WORDS * processes + buffer::WORDS * b + g,
    )
}

// Word h of semaphore s.
pub fn semaphore_word(words: &[u16], s: usize, h: usize) -> usize
    requires { Sized words.now × (Range (S_of words.now) s × (h < semaphore_width)) }
    ensures { (result ≡ semaphore_at words.now s h) × (result < 65536) }
{
    let processes = word(words, header::PROCESSES);
    let buffers = word(words, header::BUFFERS);
    word(
        words,
        semaphore::BASE
            + process::WORDS * processes
            + buffer::WORDS * buffers
            + semaphore::WORDS * s
            + h,
    )
}

// x is one of 1 to n.
pub fn among(n: usize, x: usize) -> bool
    ensures { result ≡ among n x }
{
    1 <= x && x <= n
}

// Nothing of a record that is right, else the place of the word that is named.
pub fn named_if(right: bool, place: usize) -> Option<usize>
    requires { place < 65535 }
    ensures { (result ≡ named_if right place) × Low result }
{
    if right { None } else { Some(place) }
}

// The place of word f of process p.
pub fn process_place(words: &[u16], p: usize, f: usize) -> usize
    requires { Sized words.now × (Range (P_of words.now) p × (f < process_width)) }
    ensures { (result ≡ place_in words.now (Process p f)) × ((result < length words.now) × (result ≤ 2000)) }
{
    process::BASE + process::WORDS * p + f
}

// The place of word g of buffer b.
pub fn buffer_place(words: &[u16], b: usize, g: usize) -> usize
    requires { Sized words.now × (Range (B_of words.now) b × (g < buffer_width)) }
    ensures { (result ≡ place_in words.now (Buffer b g)) × ((result + buffer_width ≤ length words.now + g) × (result ≤ 2000)) }
{
    buffer::BASE + process::WORDS * word(words, header::PROCESSES) + buffer::WORDS * b + g
}

// The place of word h of semaphore s.
pub fn semaphore_place(words: &[u16], s: usize, h: usize) -> usize
    requires { Sized words.now × (Range (S_of words.now) s × (h < semaphore_width)) }
    ensures { (result ≡ place_in words.now (Semaphore s h)) × (result ≤ 2000) }
{
    semaphore::BASE
        + process::WORDS * word(words, header::PROCESSES)
        + buffer::WORDS * word(words, header::BUFFERS)
        + semaphore::WORDS * s
        + h
}
