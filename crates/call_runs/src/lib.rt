// Many calls over lent rows.

#![tactic(auto)]

pub mod run;
mod stamp;
