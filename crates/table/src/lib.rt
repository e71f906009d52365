// The lent table: its records and its words.
#![tactic(auto, using(crate::proofs::Places::places))]

pub mod records;
pub mod sizes;
pub mod words;
