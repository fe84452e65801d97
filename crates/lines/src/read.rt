// What is found at a place of a text, for every line format.

ghost use Rattle.std.specs.Prelude.{◌≡◌, ◌≤◌, ◌<◌, length, drop, MatchOption};
ghost use Rattle.std.specs.Fn.{FnOnceReturnsAt};
ghost use Rattle.lines.specs.Line.{past_line_feed};

use crate::line::{line_length, rest_at};
use refusals::refusal::Refusal;

// What was found at a place, and the place to read at next. Nothing is found at or past the end of the text; a line is its numbers, or refused 8 or 9.
#[derive(Clone, Copy, Debug, PartialEq, Eq)]
pub struct Read<T> {
    pub found: Option<Result<T, Refusal>>,
    pub next: usize,
}

impl<T> Read<T> {
    // What a format makes of the text from a place on. The next place is past the line feed, whatever that is.
    #[tactic(auto, unfolding(crate::specs::Line::past_line_feed))]
    pub(crate) fn at<F: FnOnce(&[u8]) -> Result<T, Refusal> + Drop>(
        text: &[u8],
        place: usize,
        format: F,
    ) -> Read<T>
        requires { F.IsAlwaysCallable format }
        ensures next { result.next ≡ past_line_feed text.now place }
        ensures found { MatchOption result.found
            (length text.now ≤ place)
            (λ found. (place < length text.now) × FnOnceReturnsAt F.FnOnce format (drop place text.now) found) }
    {
        if text.len() <= place {
            return Read {
                found: None,
                next: place,
            };
        }
        let rest = rest_at(text, place);
        Read {
            found: Some(format(rest)),
            next: place + line_length(rest),
        }
    }
}
