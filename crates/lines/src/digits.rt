// Hexadecimal digits in lent bytes: how many a text begins with, their value, and writing them. Every line format uses these.

ghost use Rattle.std.specs.Prelude.{◌≡◌, ◌≤◌, ◌<◌, ◌^◌, length};
ghost use Rattle.lines.specs.Digits.{is_digit, digit_value, digits_at, hex_at, digit_byte, DigitsWritten};

// How many of the first n bytes are digits, before the first that is not or is missing.
pub(crate) fn leading_digits(text: &[u8], n: usize) -> usize
    ensures { result ≡ digits_at text.now 0 n }
{
    text.iter()
        .take(n)
        .take_while(|&&byte| is_digit(byte))
        .count()
}

// Writes the n low digits of a value at a place. Where there is no room for them it writes nothing and says so: by a bool, since who has left room
// has nothing to handle.
pub fn write_digits(out: &mut [u8], place: usize, n: usize, value: u64) -> bool
    ensures { DigitsWritten out.old place n value result out.new }
{
    if out.len() < place || out.len() - place < n {
        return false;
    }
    let mut rest = value;
    for left in (0..n).rev() {
        out[place + left] = digit_byte(rest % 16);
        rest /= 16;
    }
    true
}

// The value of digits. More than 16 do not fit.
pub(crate) fn number(digits: &[u8]) -> u64
    requires { length digits.now ≤ 16 }
    ensures value { result ≡ hex_at digits.now 0 (length digits.now) }
    ensures fits { result < 16 ^ length digits.now }
{
    let mut value = 0;
    for &byte in digits {
        value = value * 16 + digit_value(byte);
    }
    value
}

// "0-9 A-F": capitals only.
#[tactic(auto, unfolding(crate::specs::Digits::is_digit))]
fn is_digit(byte: u8) -> bool
    ensures { result ≡ is_digit byte }
{
    matches!(byte, b'0'..=b'9' | b'A'..=b'F')
}

// The value of a digit, 0 of any other byte.
#[tactic(auto, unfolding(crate::specs::Digits::is_digit, crate::specs::Digits::digit_value))]
fn digit_value(byte: u8) -> u64
    ensures { result ≡ digit_value byte }
{
    match byte {
        b'0'..=b'9' => u64::from(byte - b'0'),
        b'A'..=b'F' => u64::from(byte - b'A' + 10),
        _ => 0,
    }
}

// The digit of a value.
#[tactic(auto, unfolding(crate::specs::Digits::digit_byte))]
fn digit_byte(value: u64) -> u8
    requires { value < 16 }
    ensures { result ≡ digit_byte value }
{
    if value < 10 {
        b'0' + value as u8
    } else {
        b'A' + (value - 10) as u8
    }
}
