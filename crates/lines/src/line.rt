// The one shape of a line: n data bytes as digits, a sum byte as digits, a line feed. Where lines begin and end in a text, whatever their numbers are.

ghost use Rattle.std.specs.Prelude.{◌≡◌, ◌==◌, ◌+◌, ◌/◌, ◌<◌, ◌^◌, length, take, drop, MatchResult, Some, Ok, Err};
ghost use Rattle.lines.specs.Digits.{byte_digits};
ghost use Rattle.lines.specs.Line.{right_at, sum_at, past_first, digits_of, line_at};

use crate::digits::{leading_digits, number};
use refusals::refusal::Refusal;

// What is left of a text at a place: nothing at or past its end.
pub(crate) fn rest_at(text: &[u8], place: usize) -> &[u8]
    ensures { result.now ≡ drop place text.now }
{
    &text[place.min(text.len())..]
}

// How many bytes the first line of a text has, with its line feed.
pub(crate) fn line_length(rest: &[u8]) -> usize
    ensures { result ≡ past_first rest.now }
{
    match rest.iter().position(|&byte| byte == b'\n') {
        Some(at) => at + 1,
        None => rest.len(),
    }
}

// The digits, with the sum's, of the line of n data bytes that a text begins with: judged by form and sum, whatever its numbers are.
pub(crate) fn line_digits(rest: &[u8], n: usize) -> Result<&[u8], Refusal>
    requires { n < 2 ^ 16 }
    ensures { MatchResult result
        (λ digits. (line_at rest.now 0 n ≡ Some (Ok tt)) × (digits.now ≡ take (digits_of n) rest.now) × (length digits.now ≡ digits_of n))
        (λ refusal. 0 < length rest.now → line_at rest.now 0 n ≡ Some (Err refusal)) }
{
    let count = 2 * n + 2;
    if !is_right(rest, count) {
        return Err(Refusal::BadLine);
    }
    let digits = &rest[..count];
    let (data, sum) = digits.split_at(2 * n);
    if sum_of(data) % 256 != number(sum) {
        return Err(Refusal::BadSum);
    }
    Ok(digits)
}

// Whether a text begins with n digits and a line feed.
fn is_right(rest: &[u8], n: usize) -> bool
    ensures { result ≡ (right_at rest.now 0 n == n + 1) }
{
    if leading_digits(rest, n) != n {
        return false;
    }
    n < rest.len() && rest[n] == b'\n'
}

// The sum of bytes given as digits.
fn sum_of(digits: &[u8]) -> u64
    requires { length digits.now < 2 ^ 32 }
    ensures { result ≡ sum_at digits.now 0 (length digits.now / byte_digits) }
{
    let mut sum = 0;
    for byte in digits.chunks_exact(2) {
        sum += number(byte);
    }
    sum
}
