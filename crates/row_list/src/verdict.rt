// The truths of the listed rows as one number.

ghost use Rattle.std.specs.Prelude.{◌≡◌};
ghost use Rattle.row_list.specs.Truths.{truth_at};
ghost use Rattle.row_list.specs.Verdict.{verdict_number};

use crate::list::LIST_LIMIT;

// Bit k is the truth of the k-th listed row, all others are 0. Of a longer list than any that passes the first numbers count.
pub fn verdict(truths: &[u8], list: &[u32]) -> u16
    ensures { result ≡ verdict_number truths.now list.now }
{
    let mut number = 0;
    for &row in list[..list.len().min(LIST_LIMIT)].iter().rev() {
        number = number * 2 + u16::from(truth_at(truths, row));
    }
    number
}

// A row's truth by its byte; false where there is no such row.
pub fn truth_at(truths: &[u8], row: u32) -> bool
    ensures { result ≡ truth_at truths.now row }
{
    truths.get(row as usize).is_some_and(|truth| *truth == 1)
}
