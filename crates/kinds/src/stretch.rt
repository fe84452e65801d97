// How the spans of a row's stretch come and go (document 01, "Spans, store and record"), by its kind.

// What is asked at an event for the spans to be kept: nothing, or that the row which x or y names is true.
#[derive(Clone, Copy)]
pub enum Keep {
    Unasked,
    WhileX,
    WhileY,
}

// The row whose truth feeds the stretch: the one that x or y names.
#[derive(Clone, Copy)]
pub enum Feed {
    FromX,
    FromY,
}

// The columns of a kind with a stretch.
#[derive(Clone, Copy)]
pub struct Stretch {
    pub keep: Keep,
    pub feed: Feed,
    // The truth of that row at which what the event reaches is joined in.
    pub when: bool,
    // Whether the row is true where the time lies in a span, or where it lies in none.
    pub inside: bool,
}
