// Marks, one for each row, on those that are reached so far.

ghost use Rattle.std.specs.Prelude.{◌≡◌};
ghost use Rattle.dead_rows.specs.Marks.{marked_below, marked_where, marked_named, marked_listed};

use kinds::table::{Use, line_of};
use rules::numbers::Numbers;

// Marks each listed row of the table's.
#[tactic(auto, unfolding(crate::specs::Marks::marked_listed))]
pub(crate) fn mark_listed(marks: &mut [bool], list: &[u32], rows: u32)
    ensures { marks.new ≡ marked_listed rows list.now marks.old }
{
    for &row in list {
        mark_below(marks, row, rows);
    }
}

// Marks the rows that a row names.
#[tactic(auto, unfolding(crate::specs::Marks::marked_named))]
pub(crate) fn mark_named(marks: &mut [bool], numbers: Numbers, row: u32)
    ensures { marks.new ≡ marked_named row numbers marks.old }
{
    let line = line_of(numbers.kind);
    mark_where(marks, line.x, numbers.x, row);
    mark_where(marks, line.y, numbers.y, row);
}

// Marks a number of a row where its use is that of a lower row.
#[tactic(auto, unfolding(crate::specs::Marks::marked_where))]
fn mark_where(marks: &mut [bool], usage: Use, number: u32, row: u32)
    ensures { marks.new ≡ marked_where usage row number marks.old }
{
    if matches!(usage, Use::Lower) {
        mark_below(marks, number, row);
    }
}

// Marks a row that is below a bound; one past the marks has none.
#[tactic(auto, unfolding(crate::specs::Marks::marked_below))]
fn mark_below(marks: &mut [bool], row: u32, bound: u32)
    ensures { marks.new ≡ marked_below bound row marks.old }
{
    // By index: what is written through a slice's `get_mut` no proof knows.
    if row < bound && (row as usize) < marks.len() {
        marks[row as usize] = true;
    }
}
