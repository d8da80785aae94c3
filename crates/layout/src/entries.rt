// The list, in fives: what refusal 11 asks of its entries.
ghost use Rattle.std.specs.Prelude.{◌≡◌, ◌&&◌, ◌≤◌, ◌*◌, length, leb};
ghost use Rattle.machine.specs.Numbers.{most_priority};
ghost use Rattle.machine.specs.Layout.{sum, entries, fives, name_ok, each, proper, apart, unlike, layout_ok};

use machine::{MOST_BUFFERS, MOST_PROCESSES, entry, process};
use name::name_ok;

// The words of a list of as many processes as there may be.
const MOST_WORDS: usize = entry::WORDS * MOST_PROCESSES;

// How many buffers the entries of a list of at most 32 give out. Here and below the list is walked as its definition walks it, entry by entry.
pub fn buffers(list: &[u16]) -> usize
    requires { length list.now ≤ 164 }
    ensures { (result ≡ sum (entries list.now)) × (result ≤ 65535 * length list.now) }
{
    let [_, owns, _, _, _, others @ ..] = list else {
        return 0;
    };
    *owns as usize + buffers(others)
}

// A priority of 1 to 255, and a legal name.
fn legal_entry(priority: u16, x: u16, y: u16, z: u16) -> bool
    ensures { result ≡ (leb 1 priority && (leb priority most_priority && name_ok x y z)) }
{
    1 <= priority && priority <= process::MOST_PRIORITY && name_ok(x, y, z)
}

// Priority and name of every entry are good.
fn each_proper(list: &[u16]) -> bool
    ensures { result ≡ each proper (entries list.now) }
{
    let [priority, _, x, y, z, others @ ..] = list else {
        return true;
    };
    legal_entry(*priority, *x, *y, *z) && each_proper(others)
}

// No entry has the name x, y, z.
fn each_unlike(list: &[u16], x: u16, y: u16, z: u16) -> bool
    ensures { result ≡ each (unlike x y z) (entries list.now) }
{
    let [_, _, first, second, third, others @ ..] = list else {
        return true;
    };
    !(x == *first && y == *second && z == *third) && each_unlike(others, x, y, z)
}

// No name is repeated.
fn names_apart(list: &[u16]) -> bool
    ensures { result ≡ apart (entries list.now) }
{
    let [_, _, x, y, z, others @ ..] = list else {
        return true;
    };
    each_unlike(others, *x, *y, *z) && names_apart(others)
}

// Refusal 11 lets the list pass.
pub fn acceptable(list: &[u16]) -> bool
    ensures { result ≡ (fives list.now && layout_ok (entries list.now)) }
{
    list.len() <= MOST_WORDS
        && list.len() % entry::WORDS == 0
        && entry::WORDS <= list.len()
        && buffers(list) <= MOST_BUFFERS
        && each_proper(list)
        && names_apart(list)
}
