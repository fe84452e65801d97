// What a row without a stretch says: a column of the table of kinds.

#[derive(Clone, Copy)]
pub enum Plain {
    // True.
    Truth,
    // Bit x of the event's mask is set.
    Bit,
    // Row x is false.
    Negation,
    // Rows x and y are both true.
    Both,
    // Row x or row y is true.
    Either,
    // There is an event before, row x was true at it, and it is a to b old.
    Previous,
}
