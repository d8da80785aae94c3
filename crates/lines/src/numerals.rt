// Numbers read from upper-case hexadecimal digits and written in them, by a table of both ways.
ghost use Rattle.std.specs.Prelude.{◌≡◌, ◌+◌, ◌≤◌, length};
ghost use Rattle.machine.specs.Exchange.{words_in};
ghost use Rattle.lines.specs.Digits.{digits};
ghost use Rattle.lines.specs.Line.{word_digits};
ghost use Rattle.lines.specs.Promise.{worth, Reads, ReadsPair, ReadsWords, TwoDigits, Put};

use crate::digits::{all_zero, digit, put_zeros};
use machine::exchange::Words;

// Made once a run and lent to whoever reads or writes a line.
#[derive(Clone, Copy)]
pub struct Numerals {
    // What each byte is worth as a digit: 65,536 where it is none, more than four digits write.
    pub worths: [u32; 256],
    // The two digits of each number below 256, the first of them in the low half.
    pub pairs: [u16; 256],
    pub ghost right: { Rattle.lines.specs.Promise.Numerals worths pairs },
}

impl Numerals {
    pub fn new() -> Self {
        let mut worths = [65536; 256];
        let mut pairs = [0; 256];
        for n in 0..256u16 {
            let high = digit(n / 16);
            let low = digit(n % 16);
            worths[low as usize] = (n % 16) as u32;
            pairs[n as usize] = high as u16 + 256 * (low as u16);
        }
        Numerals { worths, pairs }
    }

    // What a byte is worth: 65,536 where it is no digit.
    fn worth(&self, byte: u8) -> u32
        ensures { (result ≡ worth byte) × (result ≤ 65536) }
    {
        self.worths[byte as usize]
    }

    // The number in the two digits from `at` on: 65,536 or more where one of them is none. An Option for each number would be asked one by one,
    // which costs a line twelve instructions (docs/SPEED.md).
    pub(crate) fn pair(&self, line: &[u8], at: usize) -> u32
        requires { at + 2 ≤ length line.now }
        ensures { ReadsPair line.now at result }
    {
        16 * self.worth(line[at]) + self.worth(line[at + 1])
    }

    // The word in the four digits from `at` on: 65,536 or more where one of them is none.
    pub(crate) fn word(&self, line: &[u8], at: usize) -> u32
        requires { at + 4 ≤ length line.now }
        ensures { Reads line.now at 4 result }
    {
        256 * self.pair(line, at) + self.pair(line, at + 2)
    }

    // The four words in the sixteen digits from `at` on, unless one of these is none.
    pub(crate) fn words(&self, line: &[u8], at: usize) -> Option<Words>
        requires { at + 16 ≤ length line.now }
        ensures { ReadsWords line.now at result }
    {
        let w0 = self.word(line, at);
        let w1 = self.word(line, at + 4);
        let w2 = self.word(line, at + 8);
        let w3 = self.word(line, at + 12);
        if (65535 < w0) | ((65535 < w1) | ((65535 < w2) | (65535 < w3))) {
            return None;
        }
        Some(Words {
            w0: w0 as u16,
            w1: w1 as u16,
            w2: w2 as u16,
            w3: w3 as u16,
        })
    }

    // The last two digits of a number, the first of them in the low half.
    fn two_digits(&self, n: u16) -> u16
        ensures { TwoDigits n result }
    {
        self.pairs[(n % 256) as usize]
    }

    // The number in two digits from `at` on.
    pub(crate) fn put_pair(&self, out: &mut [u8], at: usize, n: u16)
        requires { at + 2 ≤ length out.old }
        ensures { Put out.old at (digits 2 n) out.new }
    {
        let both = self.two_digits(n);
        out[at] = (both % 256) as u8;
        out[at + 1] = (both / 256) as u8;
    }

    // The word in four digits from `at` on.
    pub(crate) fn put_word(&self, out: &mut [u8], at: usize, w: u16)
        requires { at + 4 ≤ length out.old }
        ensures { Put out.old at (digits 4 w) out.new }
    {
        self.put_pair(out, at, w / 256);
        self.put_pair(out, at + 2, w);
    }

    // Four words in four digits each from `at` on: most answers have zeros, which go by at a stroke.
    pub(crate) fn put_words(&self, out: &mut [u8], at: usize, words: Words)
        requires { at + 16 ≤ length out.old }
        ensures { Put out.old at (word_digits (words_in words)) out.new }
    {
        if all_zero(words) {
            put_zeros(out, at);
            return;
        }
        self.put_word(out, at, words.w0);
        self.put_word(out, at + 4, words.w1);
        self.put_word(out, at + 8, words.w2);
        self.put_word(out, at + 12, words.w3);
    }
}
