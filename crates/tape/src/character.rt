// One character of the tape: its parity, and its conversion by the table.
ghost use Rattle.std.specs.Prelude.{◌≡◌, ℕ, ◌+◌, ◌≤◌, length};
ghost use Rattle.tape.specs.Parity.{checked};
ghost use Rattle.tape.specs.Character.{value, look_up};
ghost use Rattle.tape.specs.Promise.{Marks, whole, Based, Settles, Sees};

use crate::numbers::Refusal;
use crate::{base, numbers, parity};

// What becomes of a character: it is delivered as that byte, and with a class of its parity or without; it is skipped; or it is the end of the block.
#[derive(Clone, Copy)]
pub enum Kind {
    Delivered { value: u8, parity: bool },
    Skipped,
    Ended,
}

// That, and the base afterwards.
#[derive(Drop)]
pub struct Seen {
    pub kind: Kind,
    pub base: usize,
}

// What a class makes of a value, that is neither 0 nor a shift.
fn settle(class: u16, value: u8) -> Result<Kind, Refusal>
    requires { class ≡ 0 → ⊥ }
    ensures { Settles class value result }
{
    match class {
        numbers::SKIP => Ok(Kind::Skipped),
        numbers::END => Ok(Kind::Ended),
        numbers::PARITY.. => Ok(Kind::Delivered {
            value,
            parity: true,
        }),
        _ => Err(Refusal::ClassNotListed),
    }
}

// The right half of a word.
fn value(word: u16) -> u8
    ensures { result ≡ value word }
{
    (word % numbers::CLASS_WORDS) as u8
}

// A character looked up in the table, eight times at most.
fn convert(table: &[u16], base: usize, c: u8) -> Result<Seen, Refusal>
    requires { (length table.now ≤ 65536) × Based base }
    ensures { Sees (look_up 8 table.now (whole base) c) result }
{
    let mut b = base;
    for _ in 0..numbers::LOOKUPS_MOST {
        let i = base::place(b, c);
        if table.len() <= i {
            return Err(Refusal::OutsideTable);
        }
        let word = table[i];
        let v = value(word);
        // Class 0 is asked for first, being what most words have.
        if word < numbers::CLASS_WORDS {
            let kind = Kind::Delivered {
                value: v,
                parity: false,
            };
            return Ok(Seen { kind, base: b });
        }
        match word / numbers::CLASS_WORDS {
            numbers::DOWN => b = base::down(b, v),
            numbers::UP => b = base::up(b, v),
            class => {
                let kind = settle(class, v)?;
                return Ok(Seen { kind, base: b });
            }
        }
    }
    Err(Refusal::NinthLookup)
}

// One byte of the tape, converted.
pub fn character(
    marks: &[u8; 256],
    mark: u8,
    table: &[u16],
    base: usize,
    byte: u8,
) -> Result<Seen, Refusal>
    requires { Marks marks.now × (length table.now ≤ 65536) × Based base }
    ensures { (parity : ℕ) → mark ≡ 0x30 + parity → Sees (look_up 8 table.now (whole base) (checked parity byte)) result }
{
    convert(table, base, parity::checked(marks, mark, byte))
}
