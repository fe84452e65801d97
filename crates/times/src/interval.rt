// An interval [a,b] of a rule, where b may stand for no end (document 01, "The rule table").

ghost use Rattle.std.specs.Prelude.{◌≡◌, ◌==◌};
ghost use Rattle.meaning.specs.Interval.{no_end_number, end_of, ◌+End◌};
ghost use Rattle.meaning.specs.Computed.{within?, not_past?};
ghost use Rattle.meaning.specs.Sound.{length_of};

use crate::time::past_by;

// "4,294,967,295 for 'no end'": a number of the table that C lends, and so a number here, with one reader, `has_no_end`.
pub const NO_END: u32 = 4_294_967_295;

#[derive(Clone, Copy, Debug, PartialEq, Eq)]
pub struct Interval {
    pub a: u32,
    pub b: u32,
}

impl Interval {
    // Whether b stands for no end.
    pub fn has_no_end(self) -> bool
        ensures { result ≡ (self.b == no_end_number) }
    {
        self.b == NO_END
    }

    // b less a, 0 without end and where a is over b.
    #[tactic(auto, unfolding(meaning::specs::Interval::end_of))]
    pub fn length(self) -> u64
        ensures { result ≡ length_of self.a (end_of self.b) }
    {
        if self.has_no_end() {
            return 0;
        }
        u64::from(self.b.saturating_sub(self.a))
    }

    // Whether the whole gap from the former time to the time is in [a,b].
    pub fn holds(self, former: u64, time: u64) -> bool
        ensures { result ≡ within? self.a (end_of self.b) former time }
    {
        past_by(former, u64::from(self.a), time) && self.not_past(former, time)
    }

    // Whether the time is not past the former time + b.
    #[tactic(auto, unfolding(meaning::specs::Interval::end_of))]
    fn not_past(self, former: u64, time: u64) -> bool
        ensures { result ≡ not_past? time (former +End end_of self.b) }
    {
        self.has_no_end() || time.saturating_sub(former) <= u64::from(self.b)
    }
}
