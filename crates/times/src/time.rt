// Times as numbers of 64 bits. No sum is made here that might wrap.

ghost use Rattle.std.specs.Prelude.{◌≡◌, ◌+◌, nat_le};

// "281,474,976,710,655": no accepted time is over this.
pub const TIME_LIMIT: u64 = 281_474_976_710_655;

// Whether `to` is at least `from + gap`; the sum itself might wrap.
pub fn past_by(from: u64, gap: u64, to: u64) -> bool
    ensures { result ≡ nat_le (from + gap) to }
{
    from <= to && gap <= to - from
}
