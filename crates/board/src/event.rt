// One event or heartbeat for C. The record stays where it is and is changed there.

ghost use Rattle.monitor.specs.Step as Step;
ghost use Rattle.soundness.specs.Setup.{setup_of};
ghost use Rattle.board.specs.Left.{CallLeaves};

use codes::code::code;
use monitor::step;
use soundness::record::Record;
use soundness::setup::Setup;

// Refusals 1 to 3, 10, 11, 4, then 7, 6, 5, or the verdict; of a heartbeat, that the clock moved.
pub fn muk_event(
    table: &[u32],
    list: &[u32],
    store: &mut [u64],
    kept: &mut Record,
    time: u64,
    mask: u32,
) -> u32
    ensures { CallLeaves (setup_of table.now list.now) store.old kept.old (Step.event time mask)
        result kept.new store.new }
{
    code(step::event(Setup { table, list }, store, kept, time, mask))
}
