// Whether the spans of one row are sound in their words.

#![tactic(auto)]

pub mod stretch;
