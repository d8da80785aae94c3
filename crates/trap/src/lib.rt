// The monitor as a library for C and Rust: the trap code lends its words and one register record. C passes a slice as a pointer and a count.
#![tactic(auto)]

pub mod lent;
pub mod waiting;

ghost use Rattle.machine.specs.Step.{refused};
ghost use Rattle.monitor.specs.Promise.{LaidOut, SoundTold};
ghost use Rattle.trap.specs.Trapped.{Trapped};

use machine::exchange::{Call, Words};

// "The trap code lends one register record, which the call changes in place: call, a, b, words go in and stay, the answer comes out
// in places of its own": number, kind, buffer, current afterwards, four words.
#[repr(C)]
#[derive(Drop)]
pub struct Registers {
    pub call: u16,
    pub a: u16,
    pub b: u16,
    pub w0: u16,
    pub w1: u16,
    pub w2: u16,
    pub w3: u16,
    pub number: u16,
    pub kind: u16,
    pub buffer: u16,
    pub current: u16,
    pub r0: u16,
    pub r1: u16,
    pub r2: u16,
    pub r3: u16,
}

impl Registers {
    ghost use Rattle.std.specs.Prelude.{◌≡◌};
    ghost use Rattle.trap.specs.Trapped.{call_of};

    // The call that they say.
    fn asked(&self) -> Call
        ensures { result ≡ call_of self.now }
    {
        Call {
            number: self.call,
            a: self.a,
            b: self.b,
            words: Words {
                w0: self.w0,
                w1: self.w1,
                w2: self.w2,
                w3: self.w3,
            },
        }
    }
}

// One call, as the registers say it, on the table and the listing room that are lent.
#[unsafe(no_mangle)]
pub extern "C" fn monitor_trap(table: &mut [u16], room: &mut [u16], registers: &mut Registers)
    ensures { Trapped table.old table.new room.old room.new registers.old
        registers.new }
{
    let answer = monitor::call(table, room, registers.asked());
    registers.number = answer.number;
    registers.kind = answer.kind;
    registers.buffer = answer.buffer;
    registers.current = answer.current;
    registers.r0 = answer.words.w0;
    registers.r1 = answer.words.w1;
    registers.r2 = answer.words.w2;
    registers.r3 = answer.words.w3;
}

// The table laid out by a list, five words a process, in that edition, with a semaphore for each of the counters. The number of the answer, which has zeros
// besides.
#[unsafe(no_mangle)]
pub extern "C" fn monitor_layout(
    list: &[u16],
    edition: u16,
    counters: &[u16],
    table: &mut [u16],
) -> u16
    ensures { LaidOut list.now edition counters.now table.old table.new (refused result) }
{
    monitor::layout(list, edition, counters, table).number
}

// Whether the words are a sound table: 1, or 0. It is what every call asks first, and nothing else.
#[unsafe(no_mangle)]
pub extern "C" fn monitor_sound(table: &[u16]) -> u16
    ensures { SoundTold table.now result }
{
    sound::sound(table) as u16
}
