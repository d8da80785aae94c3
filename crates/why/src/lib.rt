// Why lent words are no sound table: the first clause of docs/MONITOR.md, 3 that fails, the first record at which it does, and the word that is named. A
// plain check clause by clause and record by record, in no hurry.
#![tactic(auto)]

mod clause;
mod clauses;
mod fixed;
mod numbers;
mod queues;
mod single;
mod states;
mod words;

ghost use Rattle.std.specs.Prelude.{◌≡◌};
ghost use Rattle.machine.specs.Queue.{Range};
ghost use Rattle.why.specs.Clause.{last_clause};
ghost use Rattle.why.specs.Looked.{Ready, if_fails};
ghost use Rattle.why.specs.Fault.{fault};

use clauses::{look, records};

// The last clause; they are numbered from 1.
const LAST_CLAUSE: usize = clause::DEVICE;

// Clause 0 is told of a sound table. `place` is the index of a word.
#[repr(C)]
#[derive(Drop)]
pub struct Fault {
    pub clause: u16,
    pub record: u16,
    pub place: u16,
}

// What is told of clause c, if it fails: the first record at which it does.
fn failing(words: &[u16], c: usize) -> Option<Fault>
    requires { Ready words.now c × Range last_clause c }
    ensures { result ≡ if_fails words.now c }
{
    for r in 1..=records(words, c) {
        if let Some(place) = look(words, c, r) {
            return Some(Fault {
                clause: c as u16,
                record: r as u16,
                place: place as u16,
            });
        }
    }
    None
}

// What is told of any words at all.
pub fn why(words: &[u16]) -> Fault
    ensures { result ≡ fault words.now }
{
    for c in 1..=LAST_CLAUSE {
        if let Some(fault) = failing(words, c) {
            return fault;
        }
    }
    Fault {
        clause: 0,
        record: 0,
        place: 0,
    }
}

// The same for C, which passes a slice as a pointer and a count.
#[unsafe(no_mangle)]
pub extern "C" fn monitor_why(table: &[u16]) -> Fault
    ensures { result ≡ fault table.now }
{
    why(table)
}
