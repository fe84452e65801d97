// The table of kinds: what the numbers of a row of each kind are used as, and what such a row says.

#![tactic(auto)]

pub mod kind;
pub mod plain;
pub mod rule;
pub mod stretch;
pub mod table;
