// The trap entry that also tells how far a call walks, for C and Rust: a library of its own, so that whoever doesn't ask for these numbers pays nothing for
// them. C passes a slice as a pointer and a count, an array as a pointer.
#![tactic(auto)]

ghost use Rattle.walks.specs.TrappedWalked.{TrappedWalked};

use answers::Walked;
use machine::register;
use trap::lent;

// One call, as `monitor_trap` does it, the registers lent as their fifteen words; and how far those who entered the running queue by it walked, in four words:
// entries, passed, most, moved.
#[unsafe(no_mangle)]
pub extern "C" fn monitor_trap_walked(
    table: &mut [u16],
    room: &mut [u16],
    registers: &mut [u16; register::WORDS],
    walk: &mut [u16; 4],
)
    ensures { TrappedWalked table.old table.new room.old room.new registers.old
        registers.new walk.new }
{
    let before = *registers;
    let Walked {
        answer: r,
        walk: far,
    } = monitor::call_walked(table, room, lent::asked(&before));
    *registers = [
        before[register::CALL],
        before[register::A],
        before[register::B],
        before[register::W0],
        before[register::W1],
        before[register::W2],
        before[register::W3],
        r.number,
        r.kind,
        r.buffer,
        r.current,
        r.words.w0,
        r.words.w1,
        r.words.w2,
        r.words.w3,
    ];
    *walk = [far.entries, far.passed, far.most, far.moved];
}
