// The one list of refusals (document 01, "Refusal numbers", as document 02 amends it): the error of every call that refuses. What leaves as plain numbers is
// made by `number` and `row`, and only this file takes a refusal apart.

ghost use Rattle.std.specs.Prelude.{◌≡◌, Some};
ghost use Rattle.refusals.specs.Refusals.{number_of, row_of, text_of};

use std::error::Error;
use std::fmt;

#[derive(Clone, Copy, Debug, PartialEq, Eq)]
pub enum Refusal {
    // 1: the table's length is not a multiple of 5, or its rows are not 1 to 256.
    Length,
    // 2, with its row: kind over 8, x or y not lower, bit over 30, unused not 0.
    Row(u32),
    // 3, with its row: the row passes 2, but a or b is out of range.
    Limits(u32),
    // 4: the store is shorter than the need.
    Store,
    // 5: the time is below the clock.
    Earlier,
    // 6: the time is over the limit.
    Late,
    // 7: the record is not sound.
    Unsound,
    // 8: the line is not as required.
    BadLine,
    // 9: the line's sum is wrong.
    BadSum,
    // 10: the list of row numbers is not 1 to 16, strictly rising, each within the table.
    RowList,
    // 11, with the lowest such row: a row that no listed row reaches.
    DeadRow(u32),
}

impl Refusal {
    // Its number.
    pub fn number(self) -> u32
        ensures { result ≡ number_of self }
    {
        match self {
            Refusal::Length => 1,
            Refusal::Row(_) => 2,
            Refusal::Limits(_) => 3,
            Refusal::Store => 4,
            Refusal::Earlier => 5,
            Refusal::Late => 6,
            Refusal::Unsound => 7,
            Refusal::BadLine => 8,
            Refusal::BadSum => 9,
            Refusal::RowList => 10,
            Refusal::DeadRow(_) => 11,
        }
    }

    // Its row, 0 where it has none.
    pub fn row(self) -> u32
        ensures { result ≡ row_of self }
    {
        match self {
            Refusal::Row(row) | Refusal::Limits(row) | Refusal::DeadRow(row) => row,
            Refusal::Length | Refusal::Store | Refusal::Earlier | Refusal::Late => 0,
            Refusal::Unsound | Refusal::BadLine | Refusal::BadSum | Refusal::RowList => 0,
        }
    }
}

impl fmt::Display for Refusal {
    ghost output = { λ r. Some (text_of r) };

    fn fmt<W: fmt::Write>(&self, f: &mut fmt::Formatter<W>) -> fmt::Result {
        let number = self.number();
        let row = self.row();
        write!(f, "refused {number}, row {row}")
    }
}

impl Error for Refusal {}
