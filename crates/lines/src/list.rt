// List lines (document 02, E4): the mark AA, 1 to 16 row numbers of one byte each, read at a place of a lent text. The numbers are not judged.

ghost use Rattle.std.specs.Prelude.{◌≡◌, ◌*◌, ◌/◌, ◌≤◌, ◌<◌, length, IfOk, Some, replicate};
ghost use Rattle.row_list.specs.RowList.{list_limit, numbers_of};
ghost use Rattle.lines.specs.Digits.{byte_digits};
ghost use Rattle.lines.specs.Read.{found_said, numbers_read};
ghost use Rattle.lines.specs.ListLine.{list_marked, list_count, list_of, rows_said, read_list, ReadsList};

use crate::digits::{leading_digits, number};
use crate::line::{line_digits, rest_at};
use crate::read::Read;
use refusals::refusal::Refusal;
use row_list::list::{LIST_LIMIT, RowList};

// The mark, the most row numbers and the sum.
const MOST_BYTES: usize = 1 + LIST_LIMIT + 1;

// Two digits for each of them, and the line feed.
pub const LINE_BYTES: usize = 2 * MOST_BYTES + 1;

// What stands at a place, judged by form and sum alone: the end, a list, 8 or 9. Any place may be asked for.
pub fn read_list(text: &[u8], place: usize) -> Read<RowList>
    ensures { ReadsList text.now place result }
{
    Read::at(text, place, first_list)
}

// "AA, with which no rule line may start": whether it stands at a place.
pub fn is_list_line(text: &[u8], place: usize) -> bool
    ensures { result ≡ list_marked text.now place }
{
    rest_at(text, place).starts_with(b"AA")
}

// The list that a text begins with.
fn first_list(rest: &[u8]) -> Result<RowList, Refusal>
    ensures said { 0 < length rest.now → found_said numbers_of (Some result) ≡ (read_list rest.now 0).said }
    ensures list { 0 < length rest.now → IfOk result (λ list. list ≡ list_of (rows_said (read_list rest.now 0).said)) }
{
    let count = list_count(rest);
    if count == 0 || !is_list_line(rest, 0) {
        return Err(Refusal::BadLine);
    }
    let digits = line_digits(rest, 1 + count)?;
    Ok(rows_of(&digits[2..digits.len() - 2]))
}

// How many row numbers the digits that a text begins with leave room for, between the mark and the sum.
#[tactic(auto, unfolding(crate::specs::ListLine::list_count))]
fn list_count(rest: &[u8]) -> usize
    ensures { result ≡ list_count rest.now 0 }
{
    (leading_digits(rest, 2 * MOST_BYTES) / 2).saturating_sub(2)
}

// The row numbers of these digits, and 0 past the last.
fn rows_of(digits: &[u8]) -> RowList
    requires { length digits.now ≤ byte_digits * list_limit }
    ensures { result ≡ list_of (numbers_read digits.now 0 0 (replicate (length digits.now / byte_digits) 1)) }
{
    let mut rows = [0; LIST_LIMIT];
    for (row, row_digits) in digits.chunks_exact(2).enumerate() {
        rows[row] = number(row_digits) as u32;
    }
    RowList {
        rows,
        count: digits.len() / 2,
    }
}
