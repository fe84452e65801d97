// The rule table.

#![tactic(auto)]

pub mod limits;
pub mod numbers;
pub mod says;
pub mod stretch;
pub mod table;
