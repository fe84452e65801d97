// Text at a place: digits, and every line format read and judged by form and sum alone. Owns nothing: the text is lent.

#![tactic(auto)]

pub mod digits;
pub mod frame;
mod line;
pub mod list;
pub mod read;
pub mod reader;
pub mod rule;
