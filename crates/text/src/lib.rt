// The program's text (document 01, "The program's text"): which line follows which, the lines that are written, and what a text that is still arriving
// needs. Owns nothing: state, table, store, text and output are lent.

#![tactic(auto)]

pub mod feed;
pub mod replies;
pub mod state;
mod turn;
