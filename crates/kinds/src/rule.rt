// What a row says.

use crate::plain::Plain;
use crate::stretch::Stretch;

// A row with a stretch says by its columns when it is true.
#[derive(Clone, Copy)]
pub enum Rule {
    Plain(Plain),
    Stretch(Stretch),
}
