// Refusals 1 to 3, 10, 11 and 4, then 7, with which every call begins.

ghost use Rattle.soundness.specs.Setup.{setup_in};
ghost use Rattle.soundness.specs.Fit.{Fits};

use crate::ready::ready;
use crate::record::Record;
use crate::setup::Setup;
use crate::soundness::is_sound;
use refusals::refusal::Refusal;
use rules::table::Passed;

// The rows and the need of a table, or the refusal of table, list, store or record.
#[tactic(auto, using(crate::proofs::ReadyLaws::ready_table), unfolding(crate::specs::Fit::fit_of))]
pub fn fit(setup: Setup, store: &[u64], found: &Record) -> Result<Passed, Refusal>
    ensures { Fits (setup_in setup.entry) store.now found.now result }
{
    let passed = ready(setup, store.len())?;
    if is_sound(setup.table, store, found) {
        return Ok(passed);
    }
    Err(Refusal::Unsound)
}
