// The last millisecond that an event reaches, as a word of the store.

ghost use Rattle.std.specs.Prelude.{◌≡◌};
ghost use Rattle.spans.specs.Layout.{end_at};
ghost use Rattle.spans.specs.Reached.{last_reached};

use crate::stretch::MARK;
use times::interval::Interval;
use times::time::TIME_LIMIT;

// t+b; the mark where there is no end. Of a time over the limit, at which nothing is accepted, the sum might wrap: 0 stands in its place.
pub fn last_reached(time: u64, limits: Interval) -> u64
    ensures { end_at result ≡ last_reached time limits.b }
{
    if TIME_LIMIT < time {
        return 0;
    }
    if limits.has_no_end() {
        return MARK;
    }
    time + u64::from(limits.b)
}
