// Fixed words and own buffers, a test for each clause; p, b and s are the numbers of a process, a buffer and a semaphore.
ghost use Rattle.std.specs.Prelude.{◌≡◌, ◌+◌, ◌*◌, ◌≤◌, length};
ghost use Rattle.machine.specs.Records.{process_base, process_width};
ghost use Rattle.machine.specs.Queue.{Range};
ghost use Rattle.machine.specs.Machine.{given};
ghost use Rattle.machine.specs.Sound.{P_of, B_of, S_of};
ghost use Rattle.why.specs.Looked.{Sized};
ghost use Rattle.why.specs.Asked.{same_name, owns};
ghost use Rattle.why.specs.Clause.{right, SemaphoreZero, Priority, Name, NameApart, FirstOwn, AllGiven, Owner};

use crate::numbers;
use crate::words::{among, buffer_word, process_word, semaphore_word, word};
use machine::{buffer, header, process, semaphore};
use name::name_ok;

pub fn semaphore_zero(words: &[u16], s: usize) -> bool
    requires { Sized words.now × Range (S_of words.now) s }
    ensures { result ≡ right words.now SemaphoreZero s }
{
    semaphore_word(words, s, semaphore::ZERO) == 0
}

pub fn priority(words: &[u16], p: usize) -> bool
    requires { Sized words.now × Range (P_of words.now) p }
    ensures { result ≡ right words.now Priority p }
{
    let priority = process_word(words, p, process::PRIORITY);
    among(numbers::MOST_PRIORITY, priority)
}

pub fn name(words: &[u16], p: usize) -> bool
    requires { Sized words.now × Range (P_of words.now) p }
    ensures { result ≡ right words.now Name p }
{
    let start = process::BASE + process::WORDS * p;
    name_ok(
        words[start + process::NAME],
        words[start + (process::NAME + 1)],
        words[start + (process::NAME + 2)],
    )
}

// The processes q and p have one name.
fn same_name(words: &[u16], q: usize, p: usize) -> bool
    requires { (process_base + process_width * q + process_width ≤ length words.now)
        × (process_base + process_width * p + process_width ≤ length words.now) }
    ensures { result ≡ same_name words.now q p }
{
    let other = process::BASE + process::WORDS * q;
    let start = process::BASE + process::WORDS * p;
    words[other + process::NAME] == words[start + process::NAME]
        && words[other + (process::NAME + 1)] == words[start + (process::NAME + 1)]
        && words[other + (process::NAME + 2)] == words[start + (process::NAME + 2)]
}

// No process before p has its name.
pub fn name_apart(words: &[u16], p: usize) -> bool
    requires { Sized words.now × Range (P_of words.now) p }
    ensures { result ≡ right words.now NameApart p }
{
    for q in 1..p {
        if same_name(words, q, p) {
            return false;
        }
    }
    true
}

// How many buffers the processes 1 to n have.
fn given(words: &[u16], n: usize) -> usize
    requires { Sized words.now × (n ≤ P_of words.now) }
    ensures { (result ≡ given (owns words.now) n) × (result ≤ 65535 * n) }
{
    let mut sum: usize = 0;
    for p in 1..=n {
        sum += word(words, process::BASE + process::WORDS * p + process::OWNS);
    }
    sum
}

// Own buffers begin behind those of the processes before; 0 for none.
pub fn first_own(words: &[u16], p: usize) -> bool
    requires { Sized words.now × Range (P_of words.now) p }
    ensures { result ≡ right words.now FirstOwn p }
{
    let first = process_word(words, p, process::FIRST_OWN);
    let none = process_word(words, p, process::OWNS) == 0;
    let before = given(words, p - 1);
    if none {
        first == 0
    } else {
        first == before + 1
    }
}

pub fn all_given(words: &[u16], r: usize) -> bool
    requires { Sized words.now }
    ensures { result ≡ right words.now AllGiven r }
{
    given(words, word(words, header::PROCESSES)) == word(words, header::BUFFERS)
}

// The owner of b is one of the processes, and b stands in its run.
pub fn owner(words: &[u16], b: usize) -> bool
    requires { Sized words.now × Range (B_of words.now) b }
    ensures { result ≡ right words.now Owner b }
{
    let owner = buffer_word(words, b, buffer::OWNER);
    if !among(word(words, header::PROCESSES), owner) {
        return false;
    }
    let before = given(words, owner - 1);
    let up_to = given(words, owner);
    before < b && b <= up_to
}
