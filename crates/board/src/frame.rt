// One frame for C: an event or a heartbeat at the time that its counter shows. The record stays where it is and is changed there, as in `muk_event`.

ghost use Rattle.monitor.specs.Step as Step;
ghost use Rattle.soundness.specs.Setup.{setup_of};
ghost use Rattle.board.specs.Left.{CallLeaves};

use codes::code::code;
use monitor::step;
use soundness::record::Record;
use soundness::setup::Setup;

// What `muk_event` answers at that time.
pub fn muk_frame(
    table: &[u32],
    list: &[u32],
    store: &mut [u64],
    kept: &mut Record,
    counter: u16,
    mask: u32,
) -> u32
    ensures { CallLeaves (setup_of table.now list.now) store.old kept.old (Step.frame counter mask)
        result kept.new store.new }
{
    code(step::frame(Setup { table, list }, store, kept, counter, mask))
}
