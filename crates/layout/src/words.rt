// The word of the laid-out table at each index.
ghost use Rattle.std.specs.Prelude.{◌≡◌, List, ℕ, ◌≤◌, ◌<◌, ◌-◌, ◌+◌, ◌*◌, length, get_or};
ghost use Rattle.machine.specs.Numbers.{most_buffers, most_semaphores};
ghost use Rattle.machine.specs.Records.{process_first_own};
ghost use Rattle.machine.specs.Machine.{given};
ghost use Rattle.machine.specs.Words.{size, image};
ghost use Rattle.machine.specs.Layout.{entries, entry, entry_word, owner_of, laid_over};
ghost use Rattle.layout.specs.Accepted.{Accepted, AcceptedFor};

use machine::{buffer, entry, header, process, semaphore};

// How many buffers the processes before p have.
fn given_before(list: &[u16], p: usize) -> usize
    requires { AcceptedFor list.now p }
    ensures { (result ≡ given (λ q. (entry (entries list.now) q).owns) (p - 1)) × (result ≤ most_buffers) }
{
    let mut sum = 0;
    for i in 0..p - 1 {
        sum += list[entry::WORDS * i + entry::OWNS] as usize;
    }
    sum
}

// The first buffer of process p, 0 if it has none.
fn first_own(list: &[u16], p: usize) -> u16
    requires { AcceptedFor list.now p }
    ensures { result ≡ entry_word (entries list.now) p process_first_own }
{
    if list[entry::WORDS * (p - 1) + entry::OWNS] == 0 {
        return 0;
    }
    (given_before(list, p) + 1) as u16
}

// Word f of process p.
fn process_word(list: &[u16], p: usize, f: usize) -> u16
    requires { AcceptedFor list.now p }
    ensures { result ≡ entry_word (entries list.now) p f }
{
    let at = entry::WORDS * (p - 1);
    match f {
        process::PRIORITY => list[at + entry::PRIORITY],
        process::FIRST_OWN => first_own(list, p),
        process::OWNS => list[at + entry::OWNS],
        process::NAME => list[at + entry::NAME],
        process::SECOND_NAME => list[at + entry::SECOND_NAME],
        process::THIRD_NAME => list[at + entry::THIRD_NAME],
        _ => 0,
    }
}

// Which of the processes from p on, whose entries these are, has the buffer that b others stand before.
fn owner_of(list: &[u16], p: usize, b: usize) -> u16
    requires { p + length list.now ≤ 1000 }
    ensures { result ≡ owner_of p (entries list.now) b }
{
    let [_, owns, _, _, _, others @ ..] = list else {
        return 0;
    };
    let own = *owns as usize;
    if b < own {
        p as u16
    } else {
        owner_of(others, p + 1, b - own)
    }
}

// The word at index i of the table laid out in that edition, with these counters, for n processes and k buffers, whatever stands beyond.
pub fn word(list: &[u16], edition: u16, counters: &[u16], n: usize, k: usize, i: usize) -> u16
    requires { Accepted list.now n k × ((length counters.now ≤ most_semaphores) × (i < size n k (length counters.now))) }
    ensures { (beyond : List ℕ) → result ≡ get_or (image (laid_over beyond edition counters.now (entries list.now))) i 0 }
{
    match i {
        header::PROCESSES => return n as u16,
        header::BUFFERS => return k as u16,
        header::EDITION => return edition,
        header::SEMAPHORES => return counters.len() as u16,
        _ => {}
    }
    if i < header::WORDS {
        return 0;
    }
    if i < header::WORDS + process::WORDS * n {
        let j = i - process::BASE;
        return process_word(list, j / process::WORDS, j % process::WORDS);
    }
    if i < header::WORDS + process::WORDS * n + buffer::WORDS * k {
        let j = i - buffer::BASE - process::WORDS * n;
        if j % buffer::WORDS != buffer::OWNER {
            return 0;
        }
        return owner_of(list, 1, j / buffer::WORDS - 1);
    }
    let j = i - semaphore::BASE - process::WORDS * n - buffer::WORDS * k;
    if j % semaphore::WORDS != semaphore::COUNTER {
        return 0;
    }
    counters[j / semaphore::WORDS - 1]
}
