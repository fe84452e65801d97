// One call, an event or a frame, on the record where it stands. Everything is checked before anything is written.

ghost use Rattle.soundness.specs.Setup.{setup_in};
ghost use Rattle.monitor.specs.Step.{event, frame, StepGives};

use crate::answer::Accepted;
use crate::event::judge_rows;
use crate::heartbeat::clip_rows;
use refusals::refusal::Refusal;
use row_list::verdict::verdict;
use soundness::fit::fit;
use soundness::record::Record;
use soundness::setup::Setup;
use times::frame_time::time_shown;
use times::mask::is_heartbeat;
use times::time::TIME_LIMIT;

// The verdict on an event, that a heartbeat moved the clock, or a refusal 1 to 3, 10, 11, 4, 7, 6 or 5, which leaves the record as it was. No word past the
// need is written.
pub fn event(
    setup: Setup,
    store: &mut [u64],
    kept: &mut Record,
    time: u64,
    mask: u32,
) -> Result<Accepted, Refusal>
    ensures { StepGives (setup_in setup.entry) store.old kept.old (event time mask) result kept.new store.new }
{
    fit(setup, store, kept)?;
    if TIME_LIMIT < time {
        return Err(Refusal::Late);
    }
    if time < kept.clock {
        return Err(Refusal::Earlier);
    }
    if is_heartbeat(mask) {
        clip_rows(setup, store, kept, time);
        return Ok(Accepted::ClockMoved);
    }
    judge_rows(setup, store, kept, time, mask);
    Ok(Accepted::Verdict(verdict(&kept.truths, setup.list)))
}

// The same for a frame, at the time that its counter shows.
pub fn frame(
    setup: Setup,
    store: &mut [u64],
    kept: &mut Record,
    counter: u16,
    mask: u32,
) -> Result<Accepted, Refusal>
    ensures { StepGives (setup_in setup.entry) store.old kept.old (frame counter mask) result kept.new store.new }
{
    let time = time_shown(kept.clock, counter);
    event(setup, store, kept, time, mask)
}
