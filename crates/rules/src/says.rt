// What a row says, by the table of kinds.

ghost use Rattle.std.specs.Prelude.{◌≡◌};
ghost use Rattle.kinds.specs.Kinds.{rule_line};
ghost use Rattle.rules.specs.Rows.{rule_of};

use crate::numbers::Numbers;
use kinds::rule::Rule;
use kinds::table::line_of;

// That it is a plain row, and which; or the columns of its stretch.
pub fn says(row: Numbers) -> Rule
    ensures { result ≡ rule_line (rule_of row) }
{
    line_of(row.kind).rule
}
