// The loops of the steps, each along the table's tasks, blocks or slots.
#![tactic(auto)]

pub mod counting;
pub mod finding;
pub mod idling;
pub mod sweeping;
