// Passes over the tape: one that converts by a table, and one without a table.
ghost use Rattle.std.specs.Prelude.{◌≡◌, ◌≤◌, ◌<◌, length};
ghost use Rattle.tape.specs.Tape.{run, status};
ghost use Rattle.tape.specs.Promise.{number_of_mode, Marks, whole, Converts, PutsByte, TellsAndStores, Plain};

use crate::character::Kind;
use crate::numbers::Refusal;
use crate::parity::Mode;
use crate::{character, numbers, parity};

// What a pass comes to that isn't refused: what was stored and read, the base, and whether a class of its parity came up.
#[derive(Drop)]
pub struct Passed {
    pub stored: usize,
    pub read: usize,
    pub base: usize,
    pub parity: bool,
}

// A byte that is delivered goes to its place, where that is below `full`.
fn put(area: &mut [u8], at: usize, full: usize, byte: u8)
    requires { (full ≤ length area.old) × (at < length area.old) }
    ensures { PutsByte area.old at full byte area.new }
{
    if at < full {
        area[at] = byte;
    }
}

// The status of a pass.
pub fn status(parity: bool) -> u16
    ensures { result ≡ status parity }
{
    if parity { numbers::STATUS_PARITY } else { 0 }
}

// One pass by a table that has words. Of the bytes delivered the first `full` are stored.
pub fn by_table(
    marks: &[u8; 256],
    mode: Mode,
    tape: &[u8],
    table: &[u16],
    base: usize,
    area: &mut [u8],
    full: usize,
) -> Result<Passed, Refusal>
    requires { Converts marks.now (number_of_mode mode) table.now base × (full ≤ length area.old) }
    ensures { TellsAndStores (run (number_of_mode mode) table.now (whole base) (length area.old) tape.now)
        area.old full area.new result }
{
    let mark = parity::unwanted(mode);
    let mut passed = Passed {
        stored: 0,
        read: 0,
        base,
        parity: false,
    };
    for &byte in tape {
        if passed.stored == area.len() {
            break;
        }
        let seen = character::character(marks, mark, table, passed.base, byte)?;
        passed.read += 1;
        passed.base = seen.base;
        match seen.kind {
            Kind::Delivered { value, parity } => {
                put(area, passed.stored, full, value);
                passed.stored += 1;
                if parity {
                    passed.parity = true;
                }
            }
            Kind::Skipped => {}
            Kind::Ended => break,
        }
    }
    Ok(passed)
}

// The pass without a table, which nothing refuses: how many bytes were read, and stored.
pub fn without_table(marks: &[u8; 256], mode: Mode, tape: &[u8], area: &mut [u8]) -> usize
    requires { Marks marks.now }
    ensures { Plain (number_of_mode mode) tape.now area.old area.new result }
{
    let size = if area.len() < tape.len() {
        area.len()
    } else {
        tape.len()
    };
    for i in 0..size {
        area[i] = parity::treated(marks, mode, tape[i]);
    }
    size
}
