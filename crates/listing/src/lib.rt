// Call 0B: the conversations open with a process.
#![tactic(auto)]

ghost use Rattle.std.specs.Prelude.{◌≡◌, ◌≤◌, ◌*◌, ◌+◌, ltb, length, [], ◌∷◌};
ghost use Rattle.std.proofs.lemmas.List.Edits.{sets};
ghost use Rattle.machine.specs.Exchange.{replied};
ghost use Rattle.machine.specs.Machine.{Machine};
ghost use Rattle.machine.specs.Words.{Shows};
ghost use Rattle.machine.specs.Refusal.{is_shown, shown, row_width};
ghost use Rattle.table.specs.Promise.{Can, Gives};
ghost use Rattle.table.specs.Fits.{Any, IsBuffer};
ghost use Rattle.machine.specs.Legal.{Legal};
ghost use Rattle.listing.specs.Rows.{MayShow, Shown, RoomFor, FillsRoom, ServesListing};

use machine::exchange::{Answer, ZEROS};
use machine::refusal::Refusal;
use machine::{ROW_WORDS, buffer, standing};
use table::words;

// Buffer b is not free, with owner or receiver a.
fn is_shown(t: &[u16], a: u16, b: u16) -> bool
    requires { Can t.now (IsBuffer b) }
    ensures { Gives t.now (IsBuffer b) (λ m. is_shown m a b) result }
{
    let owner = words::buffer_word(t, b, buffer::OWNER);
    let receiver = words::buffer_word(t, b, buffer::RECEIVER);
    let standing = words::buffer_word(t, b, buffer::STANDING);
    (standing != standing::FREE) & ((owner == a) | (receiver == a))
}

// How many buffers a listing for a shows.
fn count_shown(t: &[u16], a: u16) -> u16
    requires { Can t.now Any }
    ensures { Gives t.now Any (λ m. length (shown m a)) result }
{
    let n = words::buffers(t);
    let mut count: u16 = 0;
    for i in 0..n {
        if is_shown(t, a, i + 1) {
            count += 1;
        }
    }
    count
}

// Whether so many words are too few for the rows of a listing for a. Five for each buffer never are, so that the rows are counted only where there are fewer.
fn is_short(t: &[u16], a: u16, lent: usize) -> bool
    requires { Can t.now Any }
    ensures { Gives t.now Any (λ m. ltb lent (row_width * length (shown m a))) result }
{
    if ROW_WORDS * (words::buffers(t) as usize) <= lent {
        return false;
    }
    lent < ROW_WORDS * (count_shown(t, a) as usize)
}

// What a listing shows of a buffer.
#[derive(Clone, Copy)]
struct Row {
    buffer: u16,
    owner: u16,
    receiver: u16,
    standing: u16,
    age: u16,
}

// The five words of a row go into the room from `at` on.
fn put_row(room: &mut [u16], at: usize, row: Row)
    requires { at + row_width ≤ length room.old }
    ensures { room.new ≡ sets room.old at (row.buffer ∷ row.owner ∷ row.receiver ∷ row.standing ∷ row.age ∷ []) }
{
    room[at] = row.buffer;
    room[at + 1] = row.owner;
    room[at + 2] = row.receiver;
    room[at + 3] = row.standing;
    room[at + 4] = row.age;
}

// Buffer b's row goes into the room at `at`, if a listing for a shows it: where the next row goes.
fn show(t: &[u16], room: &mut [u16], a: u16, b: u16, at: usize) -> usize
    requires { Can t.now (MayShow a b at (length room.old)) }
    ensures { Shown t.now room.old room.new a b at result }
{
    if !is_shown(t, a, b) {
        return at;
    }
    let owner = words::buffer_word(t, b, buffer::OWNER);
    let receiver = words::buffer_word(t, b, buffer::RECEIVER);
    let standing = words::buffer_word(t, b, buffer::STANDING);
    let age = words::buffer_word(t, b, buffer::AGE);
    let row = Row {
        buffer: b,
        owner,
        receiver,
        standing,
        age,
    };
    put_row(room, at, row);
    at + ROW_WORDS
}

// The rows of all buffers that a listing for a shows; where they end.
fn fill(t: &[u16], room: &mut [u16], a: u16) -> usize
    requires { Can t.now (RoomFor a (length room.old)) }
    ensures { FillsRoom t.now room.old room.new a result }
{
    let n = words::buffers(t);
    let mut at: usize = 0;
    for i in 0..n {
        at = show(t, room, a, i + 1, at);
    }
    at
}

// Call 0B.
pub fn list(t: &[u16], room: &mut [u16], a: u16) -> Result<Answer, Refusal>
    requires { Can t.now Legal }
    ensures { ServesListing t.now room.old room.new a (replied result) }
{
    if answers::outside(a, words::processes(t)) {
        return Err(Refusal::NoSuchProcess);
    }
    if is_short(t, a, room.len()) {
        return Err(Refusal::RoomTooShort);
    }
    let end = fill(t, room, a);
    Ok(answers::done(t, (end / ROW_WORDS) as u16, 0, ZEROS))
}
