// The replay's text: hexadecimal lines to calls and entries, and answers to lines.
#![tactic(auto)]

mod digits;
mod numerals;

ghost use Rattle.std.specs.Prelude.{[], ◌∷◌, ◌≡◌, ◌+◌, ◌≤◌, length};
ghost use Rattle.machine.specs.Exchange.{words_in, said};
ghost use Rattle.lines.specs.Line.{well_formed, shape_of, shape, answer_line, answer_bytes, row_line, row_bytes, other_line};
ghost use Rattle.lines.specs.Promise.{numbers, Put, Wrote};

use digits::{all_zero, sixteen_zeros};
use machine::exchange::{Answer, Call, Words, ZEROS};
use machine::{ROW_WORDS, call};
pub use numerals::Numerals;

// The bytes of an answer's line with the byte that ends it.
pub const ANSWER_BYTES: usize = 31;

// The digits of a row's line, four a word, and its bytes with the byte that ends it.
const ROW_DIGITS: usize = 4 * ROW_WORDS;

pub const ROW_BYTES: usize = ROW_DIGITS + 1;

// The digits of a line of input: call, a, b and words.
pub const LINE_DIGITS: usize = 26;

// A layout entry, as it stands in the list: priority, buffers, and the three words of the name.
#[derive(Clone, Copy)]
pub struct Entry {
    pub priority: u16,
    pub owns: u16,
    pub name0: u16,
    pub name1: u16,
    pub name2: u16,
}

// What a line is.
#[derive(Clone, Copy)]
pub enum Parsed {
    Entry(Entry),
    Call(Call),
    // Any other shape.
    Other,
}

// A part that one of calls 01 to 0B doesn't use is zero.
fn well_formed(call: Call) -> bool
    ensures { result ≡ well_formed call.number call.a call.b (words_in call.words) }
{
    let zeros = all_zero(call.words);
    match call.number {
        call::SEND | call::SEND_ANSWER => call.b == 0,
        call::WAIT_INTERRUPT => zeros,
        call::TICK => (call.a == 0) & (call.b == 0) & zeros,
        _ => (call::LIST < call.number) | ((call.b == 0) & zeros),
    }
}

// What 26 digits are that write these numbers.
fn shape_of(call: Call) -> Parsed
    ensures { result ≡ numbers (shape_of call.number call.a call.b (words_in call.words)) }
{
    let Call {
        number,
        a,
        b,
        words,
    } = call;
    if number != 0 {
        return if well_formed(call) {
            Parsed::Call(call)
        } else {
            Parsed::Other
        };
    }
    if words.w3 != 0 {
        return Parsed::Other;
    }
    Parsed::Entry(Entry {
        priority: a,
        owns: b,
        name0: words.w0,
        name1: words.w1,
        name2: words.w2,
    })
}

// What a line is, without the byte that ends it.
pub fn read(line: &[u8], numerals: &Numerals) -> Parsed
    ensures { result ≡ numbers (shape line.now) }
{
    if line.len() != LINE_DIGITS {
        return Parsed::Other;
    }
    let number = numerals.pair(line, 0);
    let a = numerals.word(line, 2);
    let b = numerals.word(line, 6);
    if (65535 < number) | ((65535 < a) | (65535 < b)) {
        return Parsed::Other;
    }
    let call = Call {
        number: number as u16,
        a: a as u16,
        b: b as u16,
        words: ZEROS,
    };
    if sixteen_zeros(line, 10) {
        return shape_of(call);
    }
    let Some(words) = numerals.words(line, 10) else {
        return Parsed::Other;
    };
    shape_of(Call { words, ..call })
}

// The byte that ends a line goes into `out` at `at`; the place behind it.
fn end_line(out: &mut [u8], at: usize) -> usize
    requires { at + 1 ≤ length out.old }
    ensures put { Put out.old at (10 ∷ []) out.new }
    ensures place { result ≡ at + 1 }
{
    out[at] = b'\n';
    at + 1
}

// An answer's line goes into `out` from `at` on; the place behind it.
pub fn write_answer(out: &mut [u8], at: usize, answer: Answer, numerals: &Numerals) -> usize
    requires { at + answer_bytes ≤ length out.old }
    ensures { Wrote out.old at (answer_line (said answer)) out.new result }
{
    numerals.put_pair(out, at, answer.number);
    numerals.put_word(out, at + 2, answer.kind);
    numerals.put_word(out, at + 6, answer.buffer);
    numerals.put_word(out, at + 10, answer.current);
    numerals.put_words(out, at + 14, answer.words);
    end_line(out, at + 30)
}

// The line of one row of a listing.
pub fn write_row(out: &mut [u8], at: usize, words: Words, age: u16, numerals: &Numerals) -> usize
    requires { at + row_bytes ≤ length out.old }
    ensures { Wrote out.old at (row_line (words_in words) age) out.new result }
{
    numerals.put_words(out, at, words);
    numerals.put_word(out, at + 16, age);
    end_line(out, at + ROW_DIGITS)
}

// The line of just FF.
pub fn write_other(out: &mut [u8], at: usize) -> usize
    requires { at + 3 ≤ length out.old }
    ensures { Wrote out.old at other_line out.new result }
{
    out[at] = b'F';
    out[at + 1] = b'F';
    out[at + 2] = b'\n';
    at + 3
}
