// Why a call is refused, and its number for C.
ghost use Rattle.std.specs.Prelude.{◌≡◌};
ghost use Rattle.delays.specs.Words.{number_of};

// The number of a call that is done.
pub const DONE: u16 = 0;

#[derive(Clone, Copy)]
pub enum Refusal {
    // The words are no delay queue.
    NoQueue = 1,
    NoSuchProcess = 4,
    RoomTooShort = 10,
    // Of processes: not 1 to the most that there may be.
    WrongNumber = 11,
    WordsTooFew = 12,
}

// What C is told of a call: 0, or the number of its refusal.
pub fn told(done: Result<(), Refusal>) -> u16
    ensures { result ≡ number_of done }
{
    match done {
        Ok(()) => DONE,
        Err(refusal) => refusal as u16,
    }
}
