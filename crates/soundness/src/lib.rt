// The record, and what is asked before a call: refusals 1 to 3 of the table, 10 of the list, 11 of the rows that it leaves dead, 4 of the store, then 7 of
// the record. Soundness itself is private.

#![tactic(auto)]

pub mod fit;
pub mod ready;
pub mod record;
pub mod setup;
mod soundness;
