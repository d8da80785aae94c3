// The monitor as an archive for C and Rust: each function of the crate trap by the name that it has there. C passes a slice as a pointer and a count.
#![tactic(auto)]

ghost use Rattle.machine.specs.Step.{refused};
ghost use Rattle.monitor.specs.Promise.{LaidOut, SoundTold};
ghost use Rattle.trap.specs.Reported.{StuckTold, RingsTold};
ghost use Rattle.trap.specs.Trapped.{Trapped};

use trap::{Registers, waiting};

// One call, as the registers say it, on the table and the listing room that are lent.
#[unsafe(no_mangle)]
pub extern "C" fn monitor_trap(table: &mut [u16], room: &mut [u16], registers: &mut Registers)
    ensures { Trapped table.old table.new room.old room.new registers.old
        registers.new }
{
    trap::monitor_trap(table, room, registers)
}

// The table laid out by a list, five words a process, in that edition, with a semaphore for each of the counters. The number of the answer, which has zeros
// besides.
#[unsafe(no_mangle)]
pub extern "C" fn monitor_layout(
    list: &[u16],
    edition: u16,
    counters: &[u16],
    table: &mut [u16],
) -> u16
    ensures { LaidOut list.now edition counters.now table.old table.new (refused result) }
{
    trap::monitor_layout(list, edition, counters, table)
}

// Whether the words are a sound table: 1, or 0. It is what every call asks first, and nothing else.
#[unsafe(no_mangle)]
pub extern "C" fn monitor_sound(table: &[u16]) -> u16
    ensures { SoundTold table.now result }
{
    trap::monitor_sound(table)
}

// The processes stuck one behind the other from `process` on, into the room. The report: the number, the count, 1 for a ring.
#[unsafe(no_mangle)]
pub extern "C" fn monitor_stuck(
    table: &[u16],
    room: &mut [u16],
    process: u16,
    report: &mut [u16; 3],
)
    ensures { StuckTold table.now room.old room.new process report.old report.new }
{
    waiting::monitor_stuck(table, room, process, report)
}

// The rings of the station, into the room, a 0 behind each. The report: the number, how many rings, how many words.
#[unsafe(no_mangle)]
pub extern "C" fn monitor_rings(table: &[u16], room: &mut [u16], report: &mut [u16; 3])
    ensures { RingsTold table.now room.old room.new report.old report.new }
{
    waiting::monitor_rings(table, room, report)
}
