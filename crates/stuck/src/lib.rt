// docs/MONITOR.md, 17.1: who is stuck behind whom. From a waiting process to its buffer, from that buffer to the process that has it as receiver,
// and so on. The table is never changed.
#![tactic(auto)]

mod chain;
mod meetings;
mod rounds;
mod waits;

ghost use Rattle.std.specs.Prelude.{◌≡◌};
ghost use Rattle.machine.specs.Exchange.{number_of};
ghost use Rattle.stuck.specs.Chain.{refused, Reports};
ghost use Rattle.stuck.specs.Rings.{refused_rings, ReportsRings};

use chain::{copy, follow};
use machine::refusal::{DONE, Refusal};
use machine::{header, state};
use rounds::{fill, measure};
use sound::sound;
use waits::{PLACES, state};

// 0 or the number of a refusal; how many processes are listed; whether they end in a ring.
#[derive(Drop)]
pub struct ChainReport {
    pub number: u16,
    pub count: u16,
    pub ring: bool,
}

// 0 or the number of a refusal; how many rings there are; how many words tell them.
#[derive(Drop)]
pub struct RingReport {
    pub number: u16,
    pub rings: u16,
    pub words: u16,
}

// Refused: its number, and nothing else.
fn refused(refusal: Refusal) -> ChainReport
    ensures { result ≡ refused (number_of refusal) }
{
    ChainReport {
        number: u16::from(refusal),
        count: 0,
        ring: false,
    }
}

// The processes stuck one behind the other, from p on, into the room: how many, and whether they end in a ring.
pub fn stuck(table: &[u16], room: &mut [u16], p: u16) -> ChainReport
    ensures { Reports table.now room.old room.new p result }
{
    if !sound(table) {
        return refused(Refusal::TableNotSound);
    }
    let all = table[header::PROCESSES];
    if p == 0 || p > all {
        return refused(Refusal::NoSuchProcess);
    }
    if state(table, p) != state::WAITS_ANSWER {
        return refused(Refusal::WrongState);
    }
    let mut listed: [u16; PLACES] = [0; PLACES];
    let chain = follow(table, &mut listed, p, all);
    let count = all - chain.left;
    if room.len() < count as usize {
        return refused(Refusal::RoomTooShort);
    }
    copy(&listed, room, all, count);
    ChainReport {
        number: DONE,
        count: count,
        ring: chain.ring,
    }
}

// The same of the rings.
fn refused_rings(refusal: Refusal) -> RingReport
    ensures { result ≡ refused_rings (number_of refusal) }
{
    RingReport {
        number: u16::from(refusal),
        rings: 0,
        words: 0,
    }
}

// The rings of the station, into the room: each once, from its lowest process on in the order of waiting, with a 0 behind it.
pub fn rings(table: &[u16], room: &mut [u16]) -> RingReport
    ensures { ReportsRings table.now room.old room.new result }
{
    if !sound(table) {
        return refused_rings(Refusal::TableNotSound);
    }
    let mut sizes: [u16; PLACES] = [0; PLACES];
    let extent = measure(table, &mut sizes);
    let words = extent.words;
    if room.len() < words as usize {
        return refused_rings(Refusal::RoomTooShort);
    }
    fill(table, room, &sizes, words);
    RingReport {
        number: DONE,
        rings: extent.rings,
        words: words,
    }
}
