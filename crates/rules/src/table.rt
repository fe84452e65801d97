// The check of a rule table (document 01, "The rule table" and "Refusal numbers"), which start and every event begin with.

ghost use Rattle.std.specs.Prelude.{◌≡◌};
ghost use Rattle.rules.specs.Table.{Checks, length_passes, limits_pass};

use crate::limits::{LONGEST, ROW_LIMIT, ROW_NUMBERS};
use crate::numbers::numbers_at;
use crate::stretch::words;
use kinds::kind::Kind;
use refusals::refusal::Refusal;
use times::interval::Interval;

// What the check of a table gives: its row count, and the need in words.
#[derive(Clone, Copy)]
pub struct Passed {
    pub rows: u32,
    pub need: u64,
}

// The row count and the need of a table; or refusal 1 for its length, or that of its first bad row, after which nothing is looked at.
pub fn check(table: &[u32]) -> Result<Passed, Refusal>
    ensures { Checks table.now result }
{
    if !length_passes(table.len()) {
        return Err(Refusal::Length);
    }
    let rows = (table.len() / ROW_NUMBERS) as u32;
    let mut need = 0;
    'rows: {
        for row in 0..rows {
            let numbers = numbers_at(table, row as usize);
            let Ok(kind) = Kind::try_from(numbers.kind) else {
                break 'rows Err(Refusal::Row(row));
            };
            let line = kind.line();
            for (usage, number) in [
                (line.x, numbers.x),
                (line.y, numbers.y),
                (line.a, numbers.a),
                (line.b, numbers.b),
            ] {
                if !usage.admits(row, number) {
                    break 'rows Err(Refusal::Row(row));
                }
            }
            if !limits_pass(numbers.limits()) {
                break 'rows Err(Refusal::Limits(row));
            }
            need += words(numbers);
        }
        Ok(Passed { rows, need })
    }
}

// Whether so many numbers are whole rows, at least one and no more than the limit.
#[tactic(auto, unfolding(crate::specs::Table::length_passes))]
fn length_passes(length: usize) -> bool
    ensures { result ≡ length_passes length }
{
    length % ROW_NUMBERS == 0 && 1 <= length / ROW_NUMBERS && length / ROW_NUMBERS <= ROW_LIMIT
}

// Whether a and b are in range: a 0 to 86,400,000, b from a to 86,400,000 or no end.
#[tactic(auto, unfolding(crate::specs::Table::limits_pass))]
fn limits_pass(limits: Interval) -> bool
    ensures { result ≡ limits_pass limits.a limits.b }
{
    limits.a <= LONGEST && (limits.has_no_end() || (limits.a <= limits.b && limits.b <= LONGEST))
}
