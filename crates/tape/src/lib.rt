// The paper tape reader's input operation, as a library for C and Rust. C passes a slice as a pointer and a count.
#![tactic(auto)]

mod base;
mod character;
mod numbers;
mod parity;
mod passes;

ghost use Rattle.std.specs.Prelude.{◌≡◌};
ghost use Rattle.tape.specs.Tape.{words, taken};
ghost use Rattle.tape.specs.Promise.{number_of_mode, number_of_refusal, refusal, Based, Operates, TellsResult};

use numbers::Refusal;
use parity::Mode;
use passes::Passed;

// The answer: 0 or the number of the refusal, bytes stored, bytes read, the base, the status.
#[repr(C)]
#[derive(Drop)]
pub struct Taken {
    pub number: u16,
    pub stored: usize,
    pub read: usize,
    pub base: i32,
    pub status: u16,
}

// The words of a table by which a mode converts.
fn counted(mode: Mode, table: &[u16]) -> &[u16]
    ensures { result.now ≡ words (number_of_mode mode) table.now }
{
    match mode {
        Mode::Binary => &table[..0],
        Mode::Odd | Mode::Even => {
            if numbers::TABLE_WORDS_MOST < table.len() {
                &table[..numbers::TABLE_WORDS_MOST]
            } else {
                table
            }
        }
    }
}

// The operation: with a table one pass decides and one stores; without one nothing is left to decide once the mode is known.
fn read(
    mode: u16,
    tape: &[u8],
    table: &[u16],
    base: usize,
    area: &mut [u8],
) -> Result<Passed, Refusal>
    requires { Based base }
    ensures { Operates mode tape.now table.now base area.old result area.new }
{
    let mode = Mode::try_from(mode)?;
    let marks = parity::marks();
    let words = counted(mode, table);
    if words.len() == 0 {
        let plain = passes::without_table(&marks, mode, tape, area);
        return Ok(Passed {
            stored: plain,
            read: plain,
            base,
            parity: false,
        });
    }
    let full = area.len();
    passes::by_table(&marks, mode, tape, words, base, area, 0)?;
    passes::by_table(&marks, mode, tape, words, base, area, full)
}

// A refusal's answer.
fn refused(why: Refusal, base: i32) -> Taken
    ensures { result ≡ refusal (number_of_refusal why) base }
{
    Taken {
        number: why as u16,
        stored: 0,
        read: 0,
        base,
        status: 0,
    }
}

// The input operation: bytes of the tape go into the area, and on a refusal none does.
#[unsafe(no_mangle)]
pub extern "C" fn tape_read(
    mode: u16,
    tape: &[u8],
    table: &[u16],
    base: i32,
    area: &mut [u8],
) -> Taken
    ensures { TellsResult (taken mode tape.now table.now base area.old) result area.new }
{
    match read(mode, tape, table, base::inside(base), area) {
        Ok(passed) => Taken {
            number: numbers::DONE,
            stored: passed.stored,
            read: passed.read,
            base: base::outside(passed.base),
            status: passes::status(passed.parity),
        },
        Err(why) => refused(why, base),
    }
}
