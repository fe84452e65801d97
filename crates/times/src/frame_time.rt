// The time of a frame (document 01, "Lines from the board").

ghost use Rattle.std.specs.Prelude.{◌≡◌, ◌≤◌};
ghost use Rattle.meaning.specs.FrameTime.{frame_time};
ghost use Rattle.times.specs.FrameTime.{TimeGives, time_shown};
ghost use Rattle.times.specs.Times.{time_limit};

use crate::time::TIME_LIMIT;
use refusals::refusal::Refusal;

// The board's counter has sixteen bits.
const TURN: u64 = 65_536;

// The time of a frame: the clock, and the gap that the counter shows since. Refused 6 where the clock is over the limit. Only the clock is judged: the
// time may pass the limit, and the event then refuses it.
#[tactic(auto, unfolding(crate::specs::FrameTime::frame_time_of))]
pub fn frame_time(clock: u64, counter: u16) -> Result<u64, Refusal>
    ensures { TimeGives clock counter result }
{
    if TIME_LIMIT < clock {
        return Err(Refusal::Late);
    }
    Ok(time_after(clock, counter))
}

// The time at which a frame is judged. Of a clock over the limit, with which nothing is accepted, the sum might wrap: 0 stands in its place.
#[tactic(auto, unfolding(crate::specs::FrameTime::frame_time_of))]
pub fn time_shown(clock: u64, counter: u16) -> u64
    ensures { result ≡ time_shown clock counter }
{
    frame_time(clock, counter).unwrap_or(0)
}

// The low sixteen bits of the clock are subtracted from the counter with wrap.
#[tactic(auto, unfolding(meaning::specs::FrameTime::frame_time))]
fn time_after(clock: u64, counter: u16) -> u64
    requires { clock ≤ time_limit }
    ensures { result ≡ frame_time clock counter }
{
    let low = (clock % TURN) as u16;
    clock + u64::from(counter.wrapping_sub(low))
}
