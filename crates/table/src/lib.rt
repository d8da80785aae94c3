// The lent words under the machine: all index arithmetic and all links.
#![tactic(auto)]

pub mod events;
mod indices;
mod links;
pub mod moves;
mod queue;
pub mod running;
pub mod semaphores;
pub mod words;
