// Refusals 1 to 3, 10, 11 and 4, with which start and every call begin.

ghost use Rattle.soundness.specs.Setup.{setup_in};
ghost use Rattle.soundness.specs.Ready.{Readies};

use crate::setup::Setup;
use dead_rows::dead::lowest_dead;
use refusals::refusal::Refusal;
use row_list::list::passes;
use rules::table::{Passed, check};

// The rows and the need of a table, or its refusal; or 10 where the list does not pass, 11 where a row is dead, 4 where a store of the size is shorter than
// the need.
#[tactic(auto, using(crate::proofs::ReadyLaws::all_looked_at), unfolding(crate::specs::Ready::ready_of))]
pub fn ready(setup: Setup, size: usize) -> Result<Passed, Refusal>
    ensures { Readies (setup_in setup.entry) size result }
{
    let passed = check(setup.table)?;
    if !passes(setup.list, passed.rows) {
        return Err(Refusal::RowList);
    }
    let dead = lowest_dead(setup.table, setup.list, passed.rows);
    if dead < passed.rows {
        return Err(Refusal::DeadRow(dead));
    }
    if (size as u64) < passed.need {
        return Err(Refusal::Store);
    }
    Ok(passed)
}
