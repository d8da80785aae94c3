// The replay line by line: what each line of input does to the lent words, and the bytes it writes.
#![tactic(auto)]

mod begun;
pub mod blocks;
mod calls;
mod entries;

ghost use Rattle.std.specs.Prelude.{List, ◌≡◌, ℕ, length};
ghost use Rattle.lines.specs.Line.{Shape, shape};
ghost use Rattle.lines.specs.Replay.{State, Gathering};
ghost use Rattle.turn.specs.InWords.{InWords, gathering, shape_read, Ready, Begins, TakesTurn, Finishes};

pub use begun::{BEGUN_BYTES, LineBegun};
pub use entries::LIST_WORDS;
use lines::{ANSWER_BYTES, Numerals, Parsed, ROW_BYTES};
use machine::exchange::Call;
use machine::{MOST_BUFFERS, ROW_WORDS};

// Room for a listing of every buffer, in words.
pub const ROOM_WORDS: usize = MOST_BUFFERS * ROW_WORDS;

// No line writes more bytes than an answer and a row for every buffer.
pub const LONGEST: usize = ANSWER_BYTES + MOST_BUFFERS * ROW_BYTES;

// How far a run has come.
#[derive(Clone, Copy)]
pub enum Progress {
    // So many layout entries, 33 for more than 32.
    Gathering(u16),
    Running,
    // After a refused layout.
    Ended,
}

// What a run keeps from one line to the next, beside its table: how far it has come, the words of its layout entries, and a room for listings.
#[derive(Drop)]
pub struct Run {
    pub progress: Progress,
    pub list: [u16; LIST_WORDS],
    pub room: [u16; ROOM_WORDS],
    pub numerals: Numerals,
}

impl Run {
    // Before the first line.
    fn new() -> Self
        ensures { result.progress ≡ gathering 0 }
    {
        Run {
            progress: Progress::Gathering(0),
            list: [0; LIST_WORDS],
            room: [0; ROOM_WORDS],
            numerals: Numerals::new(),
        }
    }

    // The first call that was read, behind n entries: the layout is done, and if it isn't refused the call is made.
    fn begin(&mut self, table: &mut [u16], n: u16, call: Call, out: &mut [u8], at: usize) -> usize
        requires { Ready table.old self.old.list out.old at (gathering n) }
        ensures begins { (ws : List ℕ) → InWords (Gathering ws) table.old self.old.list (gathering n)
            → Begins ws call table.new self.old self.new out.old at out.new result }
        ensures list { self.new.list ≡ self.old.list }
    {
        if let Err(answer) = entries::lay_out(&self.list, n, table) {
            self.progress = Progress::Ended;
            return lines::write_answer(out, at, answer, &self.numerals);
        }
        self.progress = Progress::Running;
        calls::answer_call(table, &mut self.room, call, out, at, &self.numerals)
    }

    // A line of which this was read: what it writes goes into `out` from `at` on.
    fn take_turn(&mut self, table: &mut [u16], out: &mut [u8], at: usize, read: Parsed) -> usize
        requires { Ready table.old self.old.list out.old at self.old.progress }
        ensures { TakesTurn (shape_read read) table.old self.old table.new self.new out.old at out.new result }
    {
        match self.progress {
            Progress::Gathering(n) => match read {
                Parsed::Entry(entry) => {
                    self.progress = Progress::Gathering(entries::gather(&mut self.list, n, entry));
                    at
                }
                Parsed::Call(call) => self.begin(table, n, call, out, at),
                Parsed::Other => lines::write_other(out, at),
            },
            Progress::Running => match read {
                Parsed::Call(call) => calls::answer_call(
                    table,
                    &mut self.room,
                    call,
                    out,
                    at,
                    &self.numerals,
                ),
                // A late entry is as any other shape.
                Parsed::Entry(_) => lines::write_other(out, at),
                Parsed::Other => lines::write_other(out, at),
            },
            Progress::Ended => at,
        }
    }

    // One line of input, without its end: what it writes goes into `out` from `at` on.
    pub fn turn(&mut self, table: &mut [u16], out: &mut [u8], at: usize, line: &[u8]) -> usize
        requires { Ready table.old self.old.list out.old at self.old.progress }
        ensures { TakesTurn (shape line.now) table.old self.old table.new self.new out.old at out.new result }
    {
        let read = lines::read(line, &self.numerals);
        self.take_turn(table, out, at, read)
    }

    // The end of the input, where the layout is done if it wasn't yet: the place behind what is written.
    pub fn finish(&self, table: &mut [u16], out: &mut [u8], at: usize) -> usize
        requires { Ready table.old self.now.list out.old at self.now.progress }
        ensures { (s : State) → InWords s table.old self.now.list self.now.progress → Finishes s table.new out.old at
            out.new result }
    {
        let Progress::Gathering(n) = self.progress else {
            return at;
        };
        match entries::lay_out(&self.list, n, table) {
            Ok(()) => at,
            Err(answer) => lines::write_answer(out, at, answer, &self.numerals),
        }
    }
}
