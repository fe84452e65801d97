// The answers of calls as numbers, as C gets them.

#![tactic(auto)]

pub mod code;
