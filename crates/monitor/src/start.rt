// The start: an empty record, and zeros in the words of the need.

ghost use Rattle.soundness.specs.Setup.{setup_in};
ghost use Rattle.monitor.specs.Start.{StartGives};

use refusals::refusal::Refusal;
use rules::table::Passed;
use soundness::ready::ready;
use soundness::record::{Record, nothing_seen};
use soundness::setup::Setup;

// The need, or a refusal 1 to 3, 10, 11 or 4. The record becomes one with nothing seen, all zero where the start is refused, whatever stood there. A good
// start writes 0 to every word of the need and no other.
pub fn start(setup: Setup, store: &mut [u64], given: &mut Record) -> Result<u64, Refusal>
    ensures { StartGives (setup_in setup.entry) store.old result given.new store.new }
{
    // The record is put down once in either case: it is most of what a start over few rows writes.
    match ready(setup, store.len()) {
        Ok(Passed { rows, need }) => {
            store[..need as usize].fill(0);
            *given = nothing_seen(rows);
            Ok(need)
        }
        Err(fault) => {
            *given = nothing_seen(0);
            Err(fault)
        }
    }
}
