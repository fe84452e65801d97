// The time of a frame for C.

ghost use Rattle.board.specs.Numbers.{TimeLeaves};

use codes::code::refusal_code;
use times::frame_time;

// Refusal 6 where the clock is over the limit; or 0, and the time that the counter shows since the clock is written.
pub fn muk_frame_time(clock: u64, counter: u16, time: &mut u64) -> u32
    ensures { TimeLeaves clock counter time.old result time.new }
{
    match frame_time::frame_time(clock, counter) {
        Ok(shown) => {
            *time = shown;
            0
        }
        Err(fault) => refusal_code(fault),
    }
}
