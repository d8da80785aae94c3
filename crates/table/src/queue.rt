// The queues whose links the table has.

// A queue of processes, by its number: 0 the running queue, and the others those of the semaphores; or the event queue of that process.
#[derive(Clone, Copy)]
pub enum Queue {
    Processes(u16),
    Events(u16),
}

// The number of the running queue among those of processes.
pub const RUNNING_NUMBER: u16 = 0;

pub const RUNNING: Queue = Queue::Processes(RUNNING_NUMBER);
