// The words of the table that are no links.
ghost use Rattle.std.specs.Prelude.{◌+◌, ◌≤◌, length};
ghost use Rattle.machine.specs.Records.{buffer_width};
ghost use Rattle.machine.specs.Exchange.{words_in};
ghost use Rattle.machine.specs.Machine.{edition, put_process, put_buffer, put_device, message, set_receiver, set_standing, set_age};
ghost use Rattle.machine.specs.Moves.{write, free};
ghost use Rattle.table.specs.Promise.{Can, Does, Gives, Frees};
ghost use Rattle.table.specs.Fits.{Any, IsDevice, ProcessWord, PlainWord, BufferWord, MessageWord, IsBuffer, InNoQueue, MayReceive};

use crate::indices;
use machine::exchange::Words;
use machine::{buffer, device, header};

// The number of processes.
pub fn processes(t: &[u16]) -> u16
    requires { Can t.now Any }
    ensures { Gives t.now Any (λ m. m.P) result }
{
    t[header::PROCESSES]
}

// The number of buffers.
pub fn buffers(t: &[u16]) -> u16
    requires { Can t.now Any }
    ensures { Gives t.now Any (λ m. m.B) result }
{
    t[header::BUFFERS]
}

// The edition.
pub fn edition(t: &[u16]) -> u16
    requires { Can t.now Any }
    ensures { Gives t.now Any edition result }
{
    t[header::EDITION]
}

// The word of device d: the process that waits for it, 0 for none, or a kept interrupt.
pub fn device_word(t: &[u16], d: u16) -> u16
    requires { Can t.now (IsDevice d) }
    ensures { Gives t.now (IsDevice d) (λ m. m.device d) result }
{
    t[device::FIRST + d as usize]
}

// Word f of process p.
pub fn process_word(t: &[u16], p: u16, f: usize) -> u16
    requires { Can t.now (ProcessWord p f) }
    ensures { Gives t.now (ProcessWord p f) (λ m. m.process p f) result }
{
    t[indices::of_process(p, f)]
}

// Word g of buffer b.
pub fn buffer_word(t: &[u16], b: u16, g: usize) -> u16
    requires { Can t.now (BufferWord b g) }
    ensures { Gives t.now (BufferWord b g) (λ m. m.buffer b g) result }
{
    t[indices::of_buffer(t, b, g)]
}

// Word f of process p becomes x.
pub fn set_process_word(t: &mut [u16], p: u16, f: usize, x: u16)
    requires { Can t.old (PlainWord p f) }
    ensures { Does t.old t.new (PlainWord p f) (put_process p f x) }
{
    let i = indices::of_process(p, f);
    t[i] = x;
}

// The word of device d becomes x.
pub fn set_device_word(t: &mut [u16], d: u16, x: u16)
    requires { Can t.old (IsDevice d) }
    ensures { Does t.old t.new (IsDevice d) (put_device d x) }
{
    t[device::FIRST + d as usize] = x;
}

// Word g of the message in buffer b, whose record starts at that index, becomes x.
fn set_message_word(t: &mut [u16], start: usize, b: u16, g: usize, x: u16)
    requires { Can t.old (MessageWord b g start) }
    ensures { Does t.old t.new (MessageWord b g start) (put_buffer b g x) }
{
    t[start + g] = x;
}

// The receiver of buffer b, which is in no queue, becomes x.
pub fn set_receiver(t: &mut [u16], b: u16, x: u16)
    requires { Can t.old (MayReceive b x) }
    ensures { Does t.old t.new (MayReceive b x) (set_receiver b x) }
{
    let i = indices::of_buffer(t, b, buffer::RECEIVER);
    t[i] = x;
}

// The standing of buffer b, which is in no queue, becomes x.
pub fn set_standing(t: &mut [u16], b: u16, x: u16)
    requires { Can t.old (InNoQueue b) }
    ensures { Does t.old t.new (InNoQueue b) (set_standing b x) }
{
    let i = indices::of_buffer(t, b, buffer::STANDING);
    t[i] = x;
}

// The age of buffer b becomes x.
pub fn set_age(t: &mut [u16], b: u16, x: u16)
    requires { Can t.old (IsBuffer b) }
    ensures { Does t.old t.new (IsBuffer b) (set_age b x) }
{
    let i = indices::of_buffer(t, b, buffer::AGE);
    t[i] = x;
}

// Four words go into the message of buffer b.
pub fn write(t: &mut [u16], b: u16, words: Words)
    requires { Can t.old (IsBuffer b) }
    ensures { Does t.old t.new (IsBuffer b) (write b (words_in words)) }
{
    let start = indices::of_buffer(t, b, 0);
    set_message_word(t, start, b, buffer::MESSAGE, words.w0);
    set_message_word(t, start, b, buffer::SECOND, words.w1);
    set_message_word(t, start, b, buffer::THIRD, words.w2);
    set_message_word(t, start, b, buffer::FOURTH, words.w3);
}

// The four words of the message in buffer b.
pub fn message(t: &[u16], b: u16) -> Words
    requires { Can t.now (IsBuffer b) }
    ensures { Gives t.now (IsBuffer b) (λ m. message m b) (words_in result) }
{
    Words {
        w0: buffer_word(t, b, buffer::MESSAGE),
        w1: buffer_word(t, b, buffer::SECOND),
        w2: buffer_word(t, b, buffer::THIRD),
        w3: buffer_word(t, b, buffer::FOURTH),
    }
}

// The words 3 to 9 of the buffer whose record starts at that index become 0.
fn wipe(t: &mut [u16], start: usize)
    requires { start + buffer_width ≤ length t.old }
    ensures { Frees t.old t.new start }
{
    t[start + buffer::STANDING] = 0;
    t[start + buffer::RECEIVER] = 0;
    t[start + buffer::AGE] = 0;
    t[start + buffer::MESSAGE] = 0;
    t[start + buffer::SECOND] = 0;
    t[start + buffer::THIRD] = 0;
    t[start + buffer::FOURTH] = 0;
}

// Buffer b, which is in no queue, becomes free.
pub fn free(t: &mut [u16], b: u16)
    requires { Can t.old (InNoQueue b) }
    ensures { Does t.old t.new (InNoQueue b) (free b) }
{
    let start = indices::of_buffer(t, b, 0);
    wipe(t, start);
}
