// The header: the numbers of records, and whether the words are enough for them.
ghost use Rattle.std.specs.Prelude.{◌≡◌, ◌<◌, ◌≤◌, length, get_or};
ghost use Rattle.machine.specs.Records.{header_width};
ghost use Rattle.sound.specs.Records.{fits, header_legal, sized};

use machine::{
    MOST_BUFFERS, MOST_PROCESSES, MOST_SEMAPHORES, buffer, edition, header, process, semaphore,
};

// The highest numbers that a process and a buffer can have.
const LAST_PROCESS: u16 = MOST_PROCESSES as u16;

const LAST_BUFFER: u16 = MOST_BUFFERS as u16;

// Word i, as a number to count with.
pub fn word(words: &[u16], i: usize) -> usize
    requires { i < length words.now }
    ensures { (result ≡ get_or words.now i 0) × (result < 65536) }
{
    words[i] as usize
}

// That many processes, buffers and semaphores are in range, and fit in that many words.
fn fits(processes: u16, buffers: u16, semaphores: u16, length: usize) -> bool
    ensures { result ≡ fits processes buffers semaphores length }
{
    1 <= processes
        && processes <= LAST_PROCESS
        && buffers <= LAST_BUFFER
        && semaphores as usize <= MOST_SEMAPHORES
        && header::WORDS
            + process::WORDS * (processes as usize)
            + buffer::WORDS * (buffers as usize)
            + semaphore::WORDS * (semaphores as usize)
            <= length
}

// Words 4, 6 and 7: an edition, and zeros.
fn header_legal(words: &[u16]) -> bool
    requires { header_width ≤ length words.now }
    ensures { result ≡ header_legal words.now }
{
    words[header::EDITION] <= edition::SECOND
        && words[header::ZERO] == 0
        && words[header::SECOND_ZERO] == 0
}

// Long enough, numbers in range, zero words zero. No word is read before there is a header.
pub fn sized(words: &[u16]) -> bool
    ensures { result ≡ sized words.now }
{
    if words.len() < header::WORDS {
        return false;
    }
    fits(
        words[header::PROCESSES],
        words[header::BUFFERS],
        words[header::SEMAPHORES],
        words.len(),
    ) && header_legal(words)
}
