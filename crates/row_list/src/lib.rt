// A list of row numbers (document 02, E4): whether it passes for a table, and the truths of its rows as one number. Below every crate that is lent one.

#![tactic(auto)]

pub mod list;
pub mod verdict;
