// Why a call or a layout is refused, in the order in which they are asked for, and the number of each.

// The number of an answer that is no refusal.
pub const DONE: u16 = 0;

#[derive(Clone, Copy)]
pub enum Refusal {
    NoSuchCall,
    TableNotSound,
    // No process runs that could make the call.
    NoCurrent,
    NoSuchDevice,
    NoSuchProcess,
    SentToOneself,
    // Of the sender's own.
    NoFreeBuffer,
    // No such buffer, or not one that the caller may wait for or answer.
    WrongBuffer,
    WrongState,
    // Another process waits for the device.
    DeviceTaken,
    RoomTooShort,
    // The layout is not a legal one.
    WrongList,
    TableTooShort,
    NoSuchSemaphore,
    // The counter is at its end.
    CounterFull,
}

impl From<Refusal> for u16 {
    ghost use Rattle.std.specs.Prelude.{◌≡◌};
    ghost use Rattle.machine.specs.Exchange.{number_of};

    ghost from_gives = { λ refusal number. number ≡ number_of refusal };

    fn from(refusal: Refusal) -> u16 {
        match refusal {
            Refusal::NoSuchCall => 13,
            Refusal::TableNotSound => 1,
            Refusal::NoCurrent => 2,
            Refusal::NoSuchDevice => 3,
            Refusal::NoSuchProcess => 4,
            Refusal::SentToOneself => 8,
            Refusal::NoFreeBuffer => 5,
            Refusal::WrongBuffer => 6,
            Refusal::WrongState => 7,
            Refusal::DeviceTaken => 9,
            Refusal::RoomTooShort => 10,
            Refusal::WrongList => 11,
            Refusal::TableTooShort => 12,
            Refusal::NoSuchSemaphore => 19,
            Refusal::CounterFull => 20,
        }
    }
}
