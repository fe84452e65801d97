// The monitor: start, one event or frame on the record where it stands, and the same with the record handed in and back. What an event or a heartbeat does to
// the rows is private.

#![tactic(auto)]

pub mod answer;
mod event;
pub mod handed;
mod heartbeat;
pub mod start;
pub mod step;
