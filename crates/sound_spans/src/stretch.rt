// Whether a stretch is sound, for any words at all, in one pass.

ghost use Rattle.std.specs.Prelude.{◌&&◌, ◌++◌, ◌≡◌, ◌≤◌, ◌<◌, ◌+◌, ◌*◌, ◌/◌, ◌%◌, drop, length, min};
ghost use Rattle.spans.specs.Layout.{span_words, mark, end_at, zeros?};
ghost use Rattle.sound_spans.specs.StretchSound.{sound_span?, sound_from?, sound_endless?, sound_spans?, sound_stretch?, spans_straight};

use spans::ring::{SPAN_WORDS, places};
use spans::stretch::{Held, MARK};
use times::time::past_by;

// What soundness asks of a stretch beside its words: the time; the latest first of a span without end; the latest last, the mark where there may be such a
// span; and the least length of a span that begins after the time.
#[derive(Clone, Copy)]
pub struct Bounds {
    pub time: u64,
    pub latest_first: u64,
    pub latest_last: u64,
    pub long: u64,
}

// The spans held begin at the time or later and end at the latest last or before, a gap between each two, those that begin after the time with
// their full length; where the latest last is the mark, one without end may be held that begins at the latest first or before. The first place is inside,
// 0 where there is no span, and the words of free places are 0.
#[tactic(auto, using(crate::proofs::SoundSteps::by_places))]
pub fn sound(words: &[u64], held: Held, bounds: Bounds) -> bool
    ensures { result ≡ sound_stretch? words.now held bounds.time bounds.latest_first (end_at bounds.latest_last) bounds.long }
{
    if held.count == 0 {
        return held.first == 0 && zeros(words);
    }
    let room = places(words.len());
    if room <= held.first || room < held.count {
        return false;
    }
    let (early, later) = words.split_at(SPAN_WORDS * held.first);
    let ring = Ring {
        later,
        early,
        count: held.count,
    };
    ring.spans_sound(bounds) && ring.free_zeros()
}

// A stretch in which spans are held, as it is read: the words from the first place on, then those before it. Each part is a straight walk, since the words
// of every span are read with each call.
#[derive(Clone, Copy)]
struct Ring<'a> {
    later: &'a [u64],
    early: &'a [u64],
    count: usize,
    ghost some: { 0 < count },
    ghost begun: { 0 < length later.now },
    ghost whole: { length later.now % span_words ≡ 0 },
    ghost room: { span_words * count ≤ length later.now + length early.now },
}

impl<'a> Ring<'a> {
    ghost use Rattle.sound_spans.specs.Ring.{words_read, spans_read};

    // By which limits there are.
    #[tactic(auto, using(crate::proofs::SoundSteps::marked_last, crate::proofs::SoundSteps::plain_last))]
    fn spans_sound(&self, bounds: Bounds) -> bool
        ensures { result ≡ sound_spans? bounds.time bounds.latest_first (end_at bounds.latest_last) bounds.long (spans_read self.now) }
    {
        if bounds.latest_last == MARK {
            self.endless(bounds)
        } else {
            self.ending(bounds)
        }
    }

    // One span, with no end, that begins from the time to the latest first.
    #[tactic(auto, using(crate::proofs::SoundSteps::endless_told))]
    fn endless(&self, bounds: Bounds) -> bool
        ensures { result ≡ sound_endless? bounds.time bounds.latest_first (spans_read self.now) }
    {
        let first = self.later[0];
        self.count == 1
            && self.later[1] == MARK
            && bounds.time <= first
            && first <= bounds.latest_first
    }

    // Spans with an end, the first of which may begin at the time.
    #[tactic(auto, using(crate::proofs::SoundSteps::ring_straight, crate::proofs::SoundSteps::ring_round))]
    fn ending(&self, bounds: Bounds) -> bool
        requires { bounds.latest_last < mark }
        ensures { result ≡ sound_from? bounds.time bounds.time bounds.latest_last bounds.long (spans_read self.now) }
    {
        let used = SPAN_WORDS * self.count;
        let rest = self.later.len();
        if used <= rest {
            return rising(&self.later[..used], bounds.time, bounds);
        }
        let next = after(self.later[rest - 1]);
        rising(self.later, bounds.time, bounds) && rising(&self.early[..used - rest], next, bounds)
    }

    // Whether the words of free places are 0: those from the last span held round to the first.
    #[tactic(auto, using(crate::proofs::SoundSteps::free_early, crate::proofs::SoundSteps::free_around))]
    fn free_zeros(&self) -> bool
        ensures { result ≡ zeros? (drop (span_words * self.now.count) (words_read self.now)) }
    {
        let used = SPAN_WORDS * self.count;
        let rest = self.later.len();
        if rest < used {
            return zeros(&self.early[used - rest..]);
        }
        zeros(&self.later[used..]) && zeros(self.early)
    }
}

// Spans with an end in their words, the first of which may begin from `least` on.
#[tactic(auto, using(crate::proofs::SoundSteps::rising_none))]
fn rising(words: &[u64], mut least: u64, bounds: Bounds) -> bool
    requires { bounds.latest_last < mark }
    ensures { result ≡ sound_from? least bounds.time bounds.latest_last bounds.long (spans_straight words.now) }
{
    for span in words.chunks_exact(SPAN_WORDS) {
        if !span_sound(least, bounds, span[0], span[1]) {
            return false;
        }
        least = after(span[1]);
    }
    true
}

fn span_sound(least: u64, bounds: Bounds, first: u64, last: u64) -> bool
    ensures { result ≡ sound_span? least bounds.time bounds.latest_last bounds.long first last }
{
    least <= first
        && first <= last
        && last <= bounds.latest_last
        && (first <= bounds.time || past_by(first, bounds.long, last))
}

// What the next span may begin from; the greatest number where the sum would be greater, from which no span with an end begins either.
fn after(last: u64) -> u64
    ensures { result ≡ min (last + 2) mark }
{
    last.saturating_add(2)
}

// Whether every word is 0.
fn zeros(words: &[u64]) -> bool
    ensures { result ≡ zeros? words.now }
{
    words.iter().all(|word| *word == 0)
}
