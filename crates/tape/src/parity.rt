// The modes, and the parity of bytes.
ghost use Rattle.std.specs.Prelude.{◌≡◌, ℕ, ◌+◌};
ghost use Rattle.tape.specs.Parity.{unwanted, checked, treated};
ghost use Rattle.tape.specs.Promise.{number_of_mode, Decodes, Marks};

use crate::numbers;
use crate::numbers::Refusal;

// Binary takes all eight bits; in the other two a byte has so many ones, an odd number or an even one.
#[derive(Clone, Copy)]
pub enum Mode {
    Binary,
    Odd,
    Even,
}

impl TryFrom<u16> for Mode {
    type Error = Refusal;

    ghost try_from_gives = { Decodes };

    fn try_from(number: u16) -> Result<Self, Refusal> {
        match number {
            numbers::BINARY => Ok(Mode::Binary),
            numbers::ODD => Ok(Mode::Odd),
            numbers::EVEN => Ok(Mode::Even),
            _ => Err(Refusal::OtherMode),
        }
    }
}

// The byte that has only its top bit.
const TOP_BIT: u8 = 128;

// The mark of each byte: 1 where it has an odd number of ones, else 0.
const MARKS: [u8; 256] = *b"\
    0110100110010110100101100110100110010110011010010110100110010110\
    1001011001101001011010011001011001101001100101101001011001101001\
    1001011001101001011010011001011001101001100101101001011001101001\
    0110100110010110100101100110100110010110011010010110100110010110";

// The table, to be lent: made once, it isn't made again for each byte.
pub fn marks() -> [u8; 256]
    ensures { Marks result }
{
    MARKS
}

// The mark that a mode doesn't want.
pub fn unwanted(mode: Mode) -> u8
    ensures { result ≡ 0x30 + unwanted (number_of_mode mode) }
{
    match mode {
        Mode::Odd => b'0',
        Mode::Binary | Mode::Even => b'1',
    }
}

// The character of a byte in the modes that check: another where its mark isn't wanted, and without its top bit.
pub fn checked(marks: &[u8; 256], mark: u8, byte: u8) -> u8
    requires { Marks marks.now }
    ensures { (parity : ℕ) → mark ≡ 0x30 + parity → result ≡ checked parity byte }
{
    if marks[byte as usize] == mark {
        return numbers::WRONG_PARITY;
    }
    byte % TOP_BIT
}

// The character of a byte: in binary mode the byte.
pub fn treated(marks: &[u8; 256], mode: Mode, byte: u8) -> u8
    requires { Marks marks.now }
    ensures { result ≡ treated (number_of_mode mode) byte }
{
    match mode {
        Mode::Binary => byte,
        Mode::Odd | Mode::Even => checked(marks, unwanted(mode), byte),
    }
}
