// Rule lines (document 01, "The program's text"): kind, x, y, a and b, eleven data bytes, read at a place of a lent text. The numbers are not judged.

ghost use Rattle.std.specs.Prelude.{◌≡◌, ◌<◌, length, Some};
ghost use Rattle.lines.specs.Read.{found_said};
ghost use Rattle.lines.specs.Rule.{rule_numbers, read_rule, ReadsRule};

use crate::digits::number;
use crate::line::line_digits;
use crate::list::is_list_line;
use crate::read::Read;
use refusals::refusal::Refusal;

// Kind, x, y, a and b.
const DATA_BYTES: usize = 11;

#[derive(Clone, Copy, Debug, PartialEq, Eq)]
pub struct Rule {
    pub kind: u32,
    pub x: u32,
    pub y: u32,
    pub a: u32,
    pub b: u32,
}

// What stands at a place, judged by form and sum alone: the end, a rule, 8 or 9. A list line is none and refused 8. Any place may be asked for.
pub fn read_rule(text: &[u8], place: usize) -> Read<Rule>
    ensures { ReadsRule text.now place result }
{
    Read::at(text, place, first_rule)
}

// The rule that a text begins with.
fn first_rule(rest: &[u8]) -> Result<Rule, Refusal>
    ensures { 0 < length rest.now → found_said rule_numbers (Some result) ≡ (read_rule rest.now 0).said }
{
    if is_list_line(rest, 0) {
        return Err(Refusal::BadLine);
    }
    let digits = line_digits(rest, DATA_BYTES)?;
    Ok(Rule {
        kind: number(&digits[..2]) as u32,
        x: number(&digits[2..4]) as u32,
        y: number(&digits[4..6]) as u32,
        a: number(&digits[6..14]) as u32,
        b: number(&digits[14..22]) as u32,
    })
}
