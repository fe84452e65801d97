// The places of a stretch, round (document 02, E9). Nothing here reads a word.

ghost use Rattle.std.specs.Prelude.{◌≡◌};
ghost use Rattle.spans.specs.Layout.{places_of, place_at};

// "two words (first, last) for each span".
pub const SPAN_WORDS: usize = 2;

// How many places so many words have; none where a word would be left over.
#[tactic(auto, unfolding(crate::specs::Layout::places_of))]
pub fn places(size: usize) -> usize
    ensures { result ≡ places_of size }
{
    if size % SPAN_WORDS == 0 {
        return size / SPAN_WORDS;
    }
    0
}

// The place that is so many after the first, round; of any numbers at all.
#[tactic(auto, unfolding(crate::specs::Layout::place_at))]
pub fn place_at(places: usize, first: usize, i: usize) -> usize
    ensures { result ≡ place_at places first i }
{
    if places < first {
        return i;
    }
    let rest = places - first;
    if i < rest {
        return first + i;
    }
    i - rest
}
