// The start for C. The record is written where it stands.

ghost use Rattle.soundness.specs.Setup.{setup_of};
ghost use Rattle.board.specs.Left.{StartLeaves};

use codes::code::refusal_code;
use monitor::start;
use soundness::record::Record;
use soundness::setup::Setup;

// Refusals 1 to 3, 10, 11 and 4, and an all-zero record; or a record that has seen no event, its clock 0, and zeros in the words of the need.
pub fn muk_start(table: &[u32], list: &[u32], store: &mut [u64], kept: &mut Record) -> u32
    ensures { StartLeaves (setup_of table.now list.now) store.old result kept.new store.new }
{
    match start::start(Setup { table, list }, store, kept) {
        Ok(_) => 0,
        Err(fault) => refusal_code(fault),
    }
}
