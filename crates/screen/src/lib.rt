// The operator's screen: one short record for each process, into a lent list. The words are found sound before any record is read, so that what is
// read is known to be there.
#![tactic(auto)]

ghost use Rattle.std.specs.Prelude.{◌≡◌, ◌+◌, ◌≤◌, ◌<◌};
ghost use Rattle.machine.specs.Exchange.{asked};
ghost use Rattle.machine.specs.Records.{process_width};
ghost use Rattle.machine.specs.Queue.{Range};
ghost use Rattle.machine.specs.Sound.{P_of, process_at, Sound};
ghost use Rattle.screen.specs.Screen.{Screens};
ghost use Rattle.screen.specs.Reading.{buffers_of, queued, one_if_taken, sent, summary_at, Planned};

use machine::refusal::{DONE, Refusal};
use machine::{buffer, header, process, standing};
use sound::sound;

// The words of two buffers.
const TWO_BUFFERS: usize = 2 * buffer::WORDS;

// "number, state, length of its event queue, and how many conversations it has open as sender"
#[repr(C)]
#[derive(Drop)]
pub struct Summary {
    pub number: u16,
    pub state: u16,
    pub queue: u16,
    pub sent: u16,
}

// Word f of process p.
fn process_word(t: &[u16], p: u16, f: usize) -> u16
    requires { Sound t.now × (Range (P_of t.now) p × (f < process_width)) }
    ensures { result ≡ process_at t.now p f }
{
    t[process::BASE + process::WORDS * (p as usize) + f]
}

// The length of p's event queue, followed to its end, two links at a time.
fn queued(t: &[u16], buffers: &[u16], p: u16) -> u16
    requires { Sound t.now × (Range (P_of t.now) p × (buffers.now ≡ buffers_of t.now)) }
    ensures { result ≡ queued t.now p }
{
    let mut b = process_word(t, p, process::FIRST);
    let mut count: u16 = 0;
    while b != 0 {
        let second = buffers[buffer::WORDS * (b as usize) + buffer::NEXT];
        if second == 0 {
            return count + 1;
        }
        b = buffers[buffer::WORDS * (second as usize) + buffer::NEXT];
        count += 2;
    }
    count
}

// 1 for the standing of a buffer that is not free.
fn taken(standing: u16) -> u16
    ensures { (result ≡ one_if_taken standing) × (result ≤ 1) }
{
    (standing != standing::FREE) as u16
}

// How many conversations p has open as sender: its own buffers, which stand in a row, that are not free. They are passed two at a time: one at a
// time they would be read in wide steps, which doesn't pay for so few. A `for` over the pairs takes 3 instructions more for each process.
fn sent(t: &[u16], buffers: &[u16], p: u16) -> u16
    requires { Sound t.now × (Range (P_of t.now) p × (buffers.now ≡ buffers_of t.now)) }
    ensures { result ≡ sent t.now p }
{
    let first = process_word(t, p, process::FIRST_OWN);
    let mut left = process_word(t, p, process::OWNS);
    let mut at = buffer::WORDS * (first as usize) + buffer::STANDING;
    let mut count: u16 = 0;
    while left > 1 {
        count += taken(buffers[at]) + taken(buffers[at + buffer::WORDS]);
        at += TWO_BUFFERS;
        left -= 2;
    }
    if left == 0 {
        return count;
    }
    count + taken(buffers[at])
}

// The record of process p.
fn summary_of(t: &[u16], buffers: &[u16], p: u16) -> Summary
    requires { Sound t.now × (Range (P_of t.now) p × (buffers.now ≡ buffers_of t.now)) }
    ensures { result ≡ summary_at t.now p }
{
    let state = process_word(t, p, process::STATE);
    Summary {
        number: p,
        state: state,
        queue: queued(t, buffers, p),
        sent: sent(t, buffers, p),
    }
}

// How many records are to be filled: one for each process.
fn to_fill(t: &[u16], room: usize) -> Result<usize, Refusal>
    ensures { Planned t.now room result }
{
    if !sound(t) {
        return Err(Refusal::TableNotSound);
    }
    let p = t[header::PROCESSES] as usize;
    if room < p {
        return Err(Refusal::RoomTooShort);
    }
    Ok(p)
}

// The thin walk: each record is made by `summary_of` and stored.
fn fill(t: &[u16], list: &mut [Summary]) -> Result<(), Refusal>
    ensures { Screens t.now list.old list.new (asked result) }
{
    let n = to_fill(t, list.len())?;
    let buffers = &t[buffer::BASE + process::WORDS * n..];
    for i in 0..n {
        list[i] = summary_of(t, buffers, (i + 1) as u16);
    }
    Ok(())
}

// What C is told: 0, or the number of a refusal.
#[unsafe(no_mangle)]
pub extern "C" fn monitor_screen(table: &[u16], list: &mut [Summary]) -> u16
    ensures { Screens table.now list.old list.new result }
{
    match fill(table, list) {
        Ok(()) => DONE,
        Err(refusal) => u16::from(refusal),
    }
}
