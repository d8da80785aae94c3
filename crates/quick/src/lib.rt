// The trap entry for words that are known to be a sound table, for C and Rust: a library of its own, since this one entry asks something of its caller. C
// passes a slice as a pointer and a count, an array as a pointer.
#![tactic(auto)]

ghost use Rattle.machine.specs.Sound.{Sound};
ghost use Rattle.quick.specs.Quick.{QuickTrapped};

use machine::register;
use trap::lent;

// One call, as `monitor_trap` does it, the record lent as its fifteen words, on a table that isn't looked over: a layout or a call left these words, or
// `monitor_sound` was asked, and nobody has written them since.
#[unsafe(no_mangle)]
pub extern "C" fn monitor_quick(
    table: &mut [u16],
    room: &mut [u16],
    registers: &mut [u16; register::WORDS],
)
    requires { Sound table.old }
    ensures { QuickTrapped table.old table.new room.old room.new registers.old
        registers.new }
{
    let answer = monitor::serve(table, room, lent::asked(registers));
    registers[register::NUMBER] = answer.number;
    registers[register::KIND] = answer.kind;
    registers[register::BUFFER] = answer.buffer;
    registers[register::CURRENT] = answer.current;
    registers[register::R0] = answer.words.w0;
    registers[register::R1] = answer.words.w1;
    registers[register::R2] = answer.words.w2;
    registers[register::R3] = answer.words.w3;
}
