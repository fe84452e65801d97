// The numbers that bound a rule table (document 01, "The rule table" and "Spans, store and record"), each once.
// A bit of a rule is below the heartbeat's, of crate `times`.

// "five per row: kind, x, y, a, b".
pub const ROW_NUMBERS: usize = 5;

// "Raise the row limit to 256" (document 02, E6).
pub const ROW_LIMIT: usize = 256;

// "a is 0 to 86,400,000; b is a to 86,400,000".
pub const LONGEST: u32 = 86_400_000;
