// Upper-case hexadecimal digits: the byte of one, and the digits of zeros, read and written at a stroke.
ghost use Rattle.std.specs.Prelude.{◌≡◌, ◌+◌, ◌≤◌, ◌<◌, length, replicate};
ghost use Rattle.machine.specs.Exchange.{words_in};
ghost use Rattle.lines.specs.Digits.{digit};
ghost use Rattle.lines.specs.Line.{all_zero};
ghost use Rattle.lines.specs.Promise.{ZerosFrom, Put};

use machine::exchange::Words;

// The byte of a digit.
pub fn digit(v: u16) -> u8
    requires { v < 16 }
    ensures { result ≡ digit v }
{
    if v < 10 {
        return b'0' + v as u8;
    }
    b'A' + (v - 10) as u8
}

// Whether four words are zeros, as those of most calls and answers are.
pub fn all_zero(words: Words) -> bool
    ensures { result ≡ all_zero (words_in words) }
{
    (words.w0 == 0) & ((words.w1 == 0) & ((words.w2 == 0) & (words.w3 == 0)))
}

// The sixteen bytes from `at` on are the digit 0: four words that are zeros.
pub fn sixteen_zeros(line: &[u8], at: usize) -> bool
    requires { at + 16 ≤ length line.now }
    ensures { ZerosFrom line.now at 16 result }
{
    let mut all = true;
    for i in 0..16 {
        all = all & (line[at + i] == b'0');
    }
    all
}

// Sixteen digits 0 from `at` on.
pub fn put_zeros(out: &mut [u8], at: usize)
    requires { at + 16 ≤ length out.old }
    ensures { Put out.old at (replicate 16 0x30) out.new }
{
    for i in 0..16 {
        out[at + i] = b'0';
    }
}
