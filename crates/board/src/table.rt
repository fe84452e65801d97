// The table check for C.

ghost use Rattle.board.specs.Numbers.{CheckLeaves};

use codes::code::refusal_code;
use rules::table;

// Refusals 1 to 3; or 0, and the row count and the need are written.
pub fn muk_check(table: &[u32], rows: &mut u32, need: &mut u64) -> u32
    ensures { CheckLeaves table.now rows.old need.old result rows.new need.new }
{
    match table::check(table) {
        Ok(passed) => {
            *rows = passed.rows;
            *need = passed.need;
            0
        }
        Err(fault) => refusal_code(fault),
    }
}
