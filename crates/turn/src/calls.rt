// A call on the lent words, and the lines that answer it.
ghost use Rattle.std.specs.Prelude.{◌≡◌, ◌+◌, ◌*◌, ◌≤◌, length, take};
ghost use Rattle.machine.specs.Machine.{Machine};
ghost use Rattle.machine.specs.Words.{Shows};
ghost use Rattle.machine.specs.Refusal.{row_width};
ghost use Rattle.machine.specs.Legal.{Legal};
ghost use Rattle.table.specs.Promise.{Can};
ghost use Rattle.lines.specs.Line.{row_bytes};
ghost use Rattle.lines.specs.Replay.{row_lines, room_words};
ghost use Rattle.turn.specs.InWords.{Written, Answered, LineFits, rows_after};

use lines::Numerals;
use machine::exchange::{Call, Words};
use machine::{ROW_WORDS, call};

// How many rows follow an answer of that kind.
fn rows_after(number: u16, kind: u16) -> usize
    ensures { result ≡ rows_after number kind }
{
    if number != call::LIST {
        return 0;
    }
    kind as usize
}

// The lines of the first rows in the room go into `out` from `at` on; the place behind them.
fn write_rows(out: &mut [u8], at: usize, room: &[u16], count: usize, numerals: &Numerals) -> usize
    requires { (row_width * count ≤ length room.now) × (at + row_bytes * count ≤ length out.old) }
    ensures { Written out.old at (row_lines (take (row_width * count) room.now)) out.new result }
{
    let mut next = at;
    for k in 0..count {
        let i = ROW_WORDS * k;
        let words = Words {
            w0: room[i],
            w1: room[i + 1],
            w2: room[i + 2],
            w3: room[i + 3],
        };
        next = lines::write_row(out, next, words, room[i + 4], numerals);
    }
    next
}

// The call that was read is made: its answer line goes into `out` from `at` on, and the rows of a listing behind it.
pub fn answer_call(
    table: &mut [u16],
    room: &mut [u16],
    call: Call,
    out: &mut [u8],
    at: usize,
    numerals: &Numerals,
) -> usize
    requires { Can table.old Legal × (length room.old ≡ room_words) × LineFits at (length out.old) }
    ensures { (m : Machine) → Shows table.old m → Legal m → Answered m call table.new room.old
        room.new out.old at out.new result }
{
    let answer = monitor::serve(table, room, call);
    let next = lines::write_answer(out, at, answer, numerals);
    write_rows(
        out,
        next,
        room,
        rows_after(call.number, answer.kind),
        numerals,
    )
}
