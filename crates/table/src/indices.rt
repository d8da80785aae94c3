// Where the words of a record stand in the table.
ghost use Rattle.std.specs.Prelude.{◌≡◌, ◌<◌, ◌≤◌, length, get_or};
ghost use Rattle.machine.specs.Records.{header_processes, header_buffers, process_width, buffer_width, semaphore_width};
ghost use Rattle.machine.specs.Words.{Process, Buffer, Semaphore, index};
ghost use Rattle.table.specs.Links.{queue_in, head_of, place_of};

use crate::queue::{Queue, RUNNING_NUMBER};
use machine::{buffer, header, process, semaphore};

// Word f of process p.
pub fn of_process(p: u16, f: usize) -> usize
    requires { f < process_width }
    ensures { result ≡ index 0 0 (Process p f) }
{
    process::BASE + process::WORDS * (p as usize) + f
}

// Word g of buffer b, behind the processes, whose number is the table's first word.
pub fn of_buffer(t: &[u16], b: u16, g: usize) -> usize
    requires { (0 < length t.now) × (g < buffer_width) }
    ensures { result ≡ index (get_or t.now header_processes 0) 0 (Buffer b g) }
{
    buffer::BASE
        + process::WORDS * (t[header::PROCESSES] as usize)
        + buffer::WORDS * (b as usize)
        + g
}

// Word h of semaphore s, behind the processes and the buffers, whose numbers are the table's first two words.
pub fn of_semaphore(t: &[u16], s: u16, h: usize) -> usize
    requires { (1 < length t.now) × (h < semaphore_width) }
    ensures { result ≡ index (get_or t.now header_processes 0) (get_or t.now header_buffers 0) (Semaphore s h) }
{
    semaphore::BASE
        + process::WORDS * (t[header::PROCESSES] as usize)
        + buffer::WORDS * (t[header::BUFFERS] as usize)
        + semaphore::WORDS * (s as usize)
        + h
}

// The head of a queue of processes, on a side: of the running queue in the header, of another in the record of its semaphore.
fn of_head(t: &[u16], number: u16, side: usize) -> usize
    requires { (1 < length t.now) × (side ≤ 1) }
    ensures { result ≡ index (get_or t.now header_processes 0) (get_or t.now header_buffers 0) (head_of number side) }
{
    if number == RUNNING_NUMBER {
        return header::FIRST + side;
    }
    of_semaphore(t, number, semaphore::FIRST + side)
}

// The link of x in a queue, on a side, named as in the module of the links.
pub fn of_link(t: &[u16], queue: Queue, side: usize, x: u16) -> usize
    requires { (1 < length t.now) × (side ≤ 1) }
    ensures { result ≡ index (get_or t.now header_processes 0) (get_or t.now header_buffers 0)
        (place_of (queue_in queue) side x) }
{
    match queue {
        Queue::Events(p) if x == 0 => of_process(p, process::FIRST + side),
        Queue::Events(_) => of_buffer(t, x, side),
        Queue::Processes(number) if x == 0 => of_head(t, number, side),
        Queue::Processes(_) => of_process(x, side),
    }
}

// The next link of x, a member of the queue; the previous link stands behind it.
pub fn of_member(t: &[u16], queue: Queue, x: u16) -> usize
    requires { (1 < length t.now) × (1 ≤ x) }
    ensures { result ≡ index (get_or t.now header_processes 0) (get_or t.now header_buffers 0)
        (place_of (queue_in queue) 0 x) }
{
    match queue {
        Queue::Events(_) => of_buffer(t, x, buffer::NEXT),
        Queue::Processes(_) => of_process(x, process::NEXT),
    }
}
