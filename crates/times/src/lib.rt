// Whole milliseconds in code: the limit of times, sums that may not be made, an interval [a,b] against two times, the time of a frame, and the bit of a
// mask that only moves the clock.

#![tactic(auto)]

pub mod frame_time;
pub mod interval;
pub mod mask;
pub mod time;
