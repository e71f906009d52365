// Zone records over the step library: the fixed table and the blocks' room, both lent, and what a request for a record gets.
#![tactic(auto)]

pub mod records;
pub mod requests;
