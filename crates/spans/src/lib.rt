// The spans of one row in their words: an event's update of a stretch, and what it needs of words.

#![tactic(auto)]

pub mod reached;
pub mod ring;
pub mod stretch;
