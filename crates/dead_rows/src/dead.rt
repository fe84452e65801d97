// The lowest dead row of a table, by its list.

ghost use Rattle.std.specs.Prelude.{◌≡◌, min};
ghost use Rattle.rules.specs.Limits.{row_limit};
ghost use Rattle.dead_rows.specs.DeadRows.{lowest_dead};

use crate::marks::{mark_listed, mark_named};
use rules::limits::ROW_LIMIT;
use rules::numbers::numbers_at;

// The lowest row that no listed row reaches; the row count where there is none. Rows are gone through once, from the last down: a row names only lower
// ones, so that every row that can mark it was there before it. Of more rows than any table that passes has, the first count.
pub fn lowest_dead(table: &[u32], list: &[u32], rows: u32) -> u32
    ensures { result ≡ lowest_dead table.now list.now (min rows row_limit) }
{
    let count = rows.min(ROW_LIMIT as u32);
    let mut marks = [false; ROW_LIMIT];
    mark_listed(&mut marks, list, count);
    let mut dead = count;
    for row in (0..count).rev() {
        if marks[row as usize] {
            mark_named(&mut marks, numbers_at(table, row as usize), row);
        } else {
            dead = row;
        }
    }
    dead
}
