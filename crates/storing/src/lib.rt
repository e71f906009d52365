// What the steps leave in the table once their checks are passed: a table opened, a block made, shown or retired.
#![tactic(auto)]

pub mod making;
pub mod opening;
pub mod retiring;
pub mod showing;
