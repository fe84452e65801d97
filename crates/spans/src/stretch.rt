// The spans of one row in its own part of the lent store, its stretch: two words a span, rising from the first place round, the words of free places 0.
// The part is lent by whoever calls; what else is held of the row is handed in and back. No cost here passes the spans that are dropped, and one more.

ghost use Rattle.std.specs.Prelude.{[], ◌∷◌, ◌++◌, ◌≡◌, ◌≤◌, ◌<◌, ◌+◌, ◌-◌, ◌*◌, length};
ghost use Rattle.meaning.specs.Spans.{clip, join};
ghost use Rattle.spans.specs.Layout.{span_words, place_at, span_in, fitting, freed_from};
ghost use Rattle.spans.specs.Stretch.{first_covers, ended_count, held_found, kept_of, spans_fed, first_left, first_raised, Inside, UpdatedTo, ClippedTo};

use crate::ring::{SPAN_WORDS, place_at, places};
use times::time::past_by;

// The stored last of a span without end: a word of the store that C lends, and so a number here.
pub const MARK: u64 = 18_446_744_073_709_551_615;

// What stands beside a stretch's words: the place of the first span, and how many spans it holds.
#[derive(Clone, Copy)]
pub struct Held {
    pub first: usize,
    pub count: usize,
}

// What an update answers: what is held now, and whether the time lies in the first span.
#[derive(Clone, Copy)]
pub struct Updated {
    pub held: Held,
    pub covered: bool,
}

// A span in two words; one without end has the mark for its last.
#[derive(Clone, Copy)]
pub struct Span {
    pub first: u64,
    pub last: u64,
}

// One event: the spans are clipped at its time, or all dropped unless `keep`, and the span is joined in if `feed`.
// Of any words at all; a span that has no room is left out.
pub fn update(
    words: &mut [u64],
    held: Held,
    keep: bool,
    feed: bool,
    time: u64,
    span: Span,
) -> Updated
    ensures { UpdatedTo words.old held keep feed time (span_in span) words.new result }
{
    let mut ring = Ring::find(words, held);
    let covered = ring.update(keep, feed, time, span);
    Updated {
        held: ring.held,
        covered,
    }
}

// Time alone, as a heartbeat moves it: the spans are clipped at the time and ended ones dropped. Of any words at all.
pub fn clip(words: &mut [u64], held: Held, time: u64) -> Held
    ensures { ClippedTo words.old held words.new result time }
{
    let mut ring = Ring::find(words, held);
    ring.clip(time);
    ring.held
}

// The words while they are lent, with what is held in them, whose places are there.
#[derive(Drop)]
struct Ring<'a> {
    words: &'a mut [u64],
    held: Held,
    ghost inside: { Inside words.now held },
}

impl<'a> Ring<'a> {
    ghost use Rattle.spans.specs.Ring.{places_in, spans_of, SameWords, RingKept, RingWritten, RingUpdated};

    // What is held, where the words have such places; otherwise no span.
    #[tactic(auto, unfolding(crate::specs::Stretch::held_found))]
    fn find(words: &'a mut [u64], held: Held) -> Ring<'a>
        ensures same_words { result.words.ghost_name ≡ words.entry.ghost_name }
        ensures as_lent { result.words.now ≡ words.old }
        ensures found { result.held ≡ held_found words.old held }
    {
        let room = places(words.len());
        if held.first < room && held.count <= room {
            return Ring { words, held };
        }
        Ring {
            words,
            held: Held { first: 0, count: 0 },
        }
    }

    // One event. The answer is whether the time lies in the first span after it.
    fn update(&mut self, keep: bool, feed: bool, time: u64, span: Span) -> bool
        ensures same_words { SameWords self.old self.new }
        ensures updated { RingUpdated self.old keep feed time (span_in span) self.new result }
    {
        self.clip_or_clear(keep, time);
        self.join_or_not(feed, span);
        self.covers(time)
    }

    #[tactic(auto, using(crate::proofs::ClipLaws::all_dropped, crate::proofs::UpdateLaws::first_none))]
    fn clip_or_clear(&mut self, keep: bool, time: u64)
        ensures same_words { SameWords self.old self.new }
        ensures kept { RingKept self.old self.new (kept_of keep time (spans_of self.old)) }
    {
        if keep {
            self.clip(time);
        } else {
            self.drop_first(self.held.count);
        }
    }

    #[tactic(auto, using(crate::proofs::LayoutLaws::held_written, crate::proofs::LayoutLaws::fitting_all))]
    fn join_or_not(&mut self, feed: bool, span: Span)
        ensures same_words { SameWords self.old self.new }
        ensures fed { RingWritten self.old self.new (spans_fed self.old.words.now self.old.held feed (span_in span)) }
    {
        if feed {
            self.join(span);
        }
    }

    // Whether the time lies in the first span held. In a sound stretch that was just clipped at the time no later one has it, so this tells of all.
    #[tactic(auto, unfolding(crate::specs::Stretch::first_covers, crate::specs::Layout::spans_from))]
    fn covers(&self, time: u64) -> bool
        ensures { result ≡ first_covers time (spans_of self.now) }
    {
        if self.held.count == 0 {
            return false;
        }
        let first = SPAN_WORDS * self.place(0);
        self.words[first] <= time && time <= self.words[first + 1]
    }

    // The spans held are clipped: ended ones are dropped, and the first that is left begins no earlier than the time.
    #[tactic(auto, using(crate::proofs::ClipLaws::ended_few))]
    fn clip(&mut self, time: u64)
        ensures same_words { SameWords self.old self.new }
        ensures kept { RingKept self.old self.new (clip time (spans_of self.old)) }
    {
        let gone = self.ended(time);
        self.drop_first(gone);
        self.raise_first(time);
    }

    // The first spans, so many, are dropped: their places are freed, and the first place goes on past them.
    #[tactic(auto, using(crate::proofs::UpdateLaws::first_within))]
    fn drop_first(&mut self, gone: usize)
        requires { gone ≤ self.old.held.count }
        ensures same_words { SameWords self.old self.new }
        ensures freed { self.new.words.now ≡ freed_from self.old.held.first gone self.old.words.now }
        ensures placed { self.new.held.first ≡ first_left (places_in self.old) self.old.held (self.old.held.count - gone) }
        ensures left { self.new.held.count ≡ self.old.held.count - gone }
    {
        self.free(gone);
        self.held = Held {
            first: self.first_after(gone),
            count: self.held.count - gone,
        };
    }

    // The first place past so many of the spans held, round; 0 where none is left.
    #[tactic(auto, unfolding(crate::specs::Stretch::first_left))]
    fn first_after(&self, gone: usize) -> usize
        requires { gone ≤ self.now.held.count }
        ensures { result ≡ first_left (places_in self.now) self.now.held (self.now.held.count - gone) }
    {
        if gone == self.held.count {
            return 0;
        }
        self.place(gone)
    }

    // The words of so many places, from the first on, become 0.
    fn free(&mut self, count: usize)
        requires { count ≤ self.old.held.count }
        ensures same_words { SameWords self.old self.new }
        ensures same_held { self.new.held ≡ self.old.held }
        ensures freed { self.new.words.now ≡ freed_from self.old.held.first count self.old.words.now }
    {
        for i in 0..count {
            let place = SPAN_WORDS * self.place(i);
            self.words[place] = 0;
            self.words[place + 1] = 0;
        }
    }

    // The first span, if there is one, begins no earlier than the time.
    fn raise_first(&mut self, time: u64)
        ensures same_words { SameWords self.old self.new }
        ensures same_held { self.new.held ≡ self.old.held }
        ensures raised { self.new.words.now ≡ first_raised time self.old.words.now self.old.held }
    {
        if self.held.count != 0 {
            let place = SPAN_WORDS * self.place(0);
            self.words[place] = self.words[place].max(time);
        }
    }

    // How many spans from the first on ended before the time.
    #[tactic(auto, using(crate::proofs::ClipLaws::ended_more, crate::proofs::ClipLaws::ended_stop, crate::proofs::ClipLaws::ended_none))]
    fn ended(&self, time: u64) -> usize
        ensures { result ≡ ended_count time (spans_of self.now) }
    {
        for i in 0..self.held.count {
            if time <= self.words[SPAN_WORDS * self.place(i) + 1] {
                return i;
            }
        }
        self.held.count
    }

    // The span is joined in: it extends the last span held where the two touch or overlap, otherwise it follows it.
    fn join(&mut self, span: Span)
        ensures same_words { SameWords self.old self.new }
        ensures joined { RingWritten self.old self.new (fitting self.old.words.now (join (span_in span) (spans_of self.old))) }
    {
        if self.held.count == 0 {
            self.append(span);
            return;
        }
        let last = self.held.count - 1;
        let place = SPAN_WORDS * self.place(last);
        if past_by(self.words[place + 1], 2, span.first) {
            self.append(span);
        } else {
            self.words[place + 1] = span.last;
        }
    }

    // The span is written after those held, if there is room.
    fn append(&mut self, span: Span)
        ensures same_words { SameWords self.old self.new }
        ensures appended { RingWritten self.old self.new (fitting self.old.words.now (spans_of self.old ++ (span_in span ∷ []))) }
    {
        if places(self.words.len()) <= self.held.count {
            return;
        }
        let after = self.held.count;
        let place = SPAN_WORDS * self.place(after);
        self.words[place] = span.first;
        self.words[place + 1] = span.last;
        self.held.count += 1;
    }

    // Where the i-th span from the first place on stands, or would.
    #[tactic(auto, using(crate::proofs::RoundLaws::place_fits))]
    fn place(&self, i: usize) -> usize
        requires { i < places_in self.now }
        ensures at { result ≡ place_at (places_in self.now) self.now.held.first i }
        ensures inside { span_words * (result + 1) ≤ length self.now.words.now }
    {
        place_at(places(self.words.len()), self.held.first, i)
    }
}
