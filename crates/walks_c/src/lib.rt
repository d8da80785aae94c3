// The trap entry that also tells how far a call walks, as an archive for C and Rust: the function of the crate walks by the name that it has there. C passes
// a slice as a pointer and a count, an array as a pointer.
#![tactic(auto)]

ghost use Rattle.walks.specs.TrappedWalked.{TrappedWalked};

use machine::register;

// One call, as `monitor_trap` does it, the registers lent as their fifteen words; and how far those who entered the running queue by it walked, in four words:
// entries, passed, most, moved.
#[unsafe(no_mangle)]
pub extern "C" fn monitor_trap_walked(
    table: &mut [u16],
    room: &mut [u16],
    registers: &mut [u16; register::WORDS],
    walk: &mut [u16; 4],
)
    ensures { TrappedWalked table.old table.new room.old room.new registers.old
        registers.new walk.new }
{
    walks::monitor_trap_walked(table, room, registers, walk)
}
