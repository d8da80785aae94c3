// The layout entries of a run, kept until the layout is done.
ghost use Rattle.std.specs.Prelude.{List, ◌≡◌, ℕ, ◌≤◌, length};
ghost use Rattle.turn.specs.InWords.{Entries, Zeros, entry_words, AddsEntry, Lays};

use lines::Entry;
use machine::exchange::Answer;
use machine::refusal::DONE;
use machine::{MOST_PROCESSES, edition, entry};

// The words of 32 entries and one more: of more than 32 a layout has too many.
pub const LIST_WORDS: usize = entry::WORDS * (MOST_PROCESSES + 1);

// One entry more behind the n that the list has: how many there are now. Of more than 32 no more is stored.
pub fn gather(list: &mut [u16], n: u16, read: Entry) -> u16
    requires { (length list.old ≡ 165) × (n ≤ 33) }
    ensures { AddsEntry list.old n (entry_words read) list.new result }
{
    if 32 < n {
        return n;
    }
    let at = entry::WORDS * (n as usize);
    list[at + entry::PRIORITY] = read.priority;
    list[at + entry::OWNS] = read.owns;
    list[at + entry::NAME] = read.name0;
    list[at + entry::SECOND_NAME] = read.name1;
    list[at + entry::THIRD_NAME] = read.name2;
    n + 1
}

// The table of zeros is laid out by the n entries, in edition 0 and without semaphores: the answer where it is refused.
pub fn lay_out(list: &[u16], n: u16, table: &mut [u16]) -> Result<(), Answer>
    requires { (length list.now ≡ 165) × (n ≤ 33) }
    ensures { (ws : List ℕ) → Entries ws list.now n → Zeros table.old → Lays ws table.new result }
{
    let words = entry::WORDS * (n as usize);
    let made = monitor::layout(&list[..words], edition::FIRST, &list[..0], table);
    if made.number == DONE {
        return Ok(());
    }
    Err(made)
}
