// The five numbers of a row, read from the lent table.

ghost use Rattle.std.specs.Prelude.{◌≡◌, get_or};
ghost use Rattle.rules.specs.Rows.{numbers_at, limits_of};

use crate::limits::ROW_NUMBERS;
use times::interval::Interval;

// As C lends them: a kind is a number, whether there is such a kind or not.
#[derive(Clone, Copy)]
pub struct Numbers {
    pub kind: u32,
    pub x: u32,
    pub y: u32,
    pub a: u32,
    pub b: u32,
}

impl Numbers {
    // The limits of the row, a to b.
    pub fn limits(self) -> Interval
        ensures { result ≡ limits_of self }
    {
        Interval {
            a: self.a,
            b: self.b,
        }
    }
}

// The numbers of a row; those past the table's end read as 0.
pub fn numbers_at(table: &[u32], row: usize) -> Numbers
    ensures { result ≡ numbers_at table.now row }
{
    // Past the table's length all are; so that row * 5 cannot overflow.
    let start = row.min(table.len()) * ROW_NUMBERS;
    Numbers {
        kind: number_at(table, start),
        x: number_at(table, start + 1),
        y: number_at(table, start + 2),
        a: number_at(table, start + 3),
        b: number_at(table, start + 4),
    }
}

// One number; 0 past the table's end.
pub fn number_at(table: &[u32], at: usize) -> u32
    ensures { result ≡ get_or table.now at 0 }
{
    table.get(at).copied().unwrap_or(0)
}
