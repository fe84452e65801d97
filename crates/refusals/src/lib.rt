// The one list of refusals, below every crate that refuses.

#![tactic(auto)]

pub mod refusal;
