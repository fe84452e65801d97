// What firmware calls, for Rattle: `board_c` exports these functions to C under the same names, and include/muktrashi.h declares them. Every function
// answers every input with one code and keeps nothing between calls. No struct goes by value in or out of one, so that the calling convention is the
// same on every processor. A single number behind a pointer is written only where the call gives it.

#![tactic(auto)]

pub mod event;
pub mod frame;
pub mod frame_time;
pub mod line;
pub mod start;
pub mod table;
pub mod version;
