// The lines that the program writes (document 01, "The program's text"; document 02, E2 and E4), each from the start of what is lent of the
// output. Whoever calls sees to the room.

ghost use Rattle.std.specs.Prelude.{◌≡◌, ◌+◌, ◌≤◌, length};
ghost use Rattle.refusals.specs.Refusals.{refused};
ghost use Rattle.text.specs.Replies.{longest_reply, reply_line, refused_line, moved_line, Wrote};
ghost use Rattle.text.specs.Reply.{line_of};

use lines::digits::write_digits;
use monitor::answer::Accepted;
use refusals::refusal::Refusal;

// "need in 8 digits", "12 digits of time", "Verdicts are written as four digits", and two digits for every other number, a byte.
const NEED_DIGITS: usize = 8;

const TIME_DIGITS: usize = 12;

const VERDICT_DIGITS: usize = 4;

const BYTE_DIGITS: usize = 2;

// "EE", with which a refusal begins.
const REFUSAL_MARK: u64 = 0xEE;

// No line that is written is longer than an accepted frame's: its time, the verdict or hyphens, and the line feed.
pub const LONGEST_REPLY: usize = TIME_DIGITS + VERDICT_DIGITS + 1;

#[derive(Clone, Copy, Debug, PartialEq, Eq)]
pub(crate) enum Reply {
    // The need of a good start.
    Need(u64),
    // An accepted frame's time and answer.
    Accepted(u64, Accepted),
    // A refusal, and the row beside it.
    Refused(Refusal, u32),
}

impl From<Refusal> for Reply {
    // A refusal with the row that it gives, or 00.
    fn from(fault: Refusal) -> Reply
        ensures { line_of result ≡ refused_line (refused fault) }
    {
        Reply::Refused(fault, fault.row())
    }
}

impl Reply {
    // Its line. How many bytes it has.
    pub(crate) fn write(self, out: &mut [u8]) -> usize
        requires { longest_reply ≤ length out.old }
        ensures { Wrote out.old (line_of self) result out.new }
    {
        match self {
            Reply::Need(need) => write_numbers(out, 0, 0, NEED_DIGITS, need),
            Reply::Accepted(time, Accepted::Verdict(number)) => {
                write_numbers(out, TIME_DIGITS, time, VERDICT_DIGITS, u64::from(number))
            }
            Reply::Accepted(time, Accepted::ClockMoved) => write_moved(out, time),
            Reply::Refused(fault, row) => {
                write_digits(out, 0, BYTE_DIGITS, REFUSAL_MARK);
                let (number, row) = (u64::from(fault.number()), u64::from(row));
                let rest = &mut out[BYTE_DIGITS..];
                BYTE_DIGITS + write_numbers(rest, BYTE_DIGITS, number, BYTE_DIGITS, row)
            }
        }
    }
}

// "12 digits of time", and "a heartbeat as four hyphens".
fn write_moved(out: &mut [u8], time: u64) -> usize
    requires { longest_reply ≤ length out.old }
    ensures { Wrote out.old (moved_line time) result out.new }
{
    write_digits(out, 0, TIME_DIGITS, time);
    let end = TIME_DIGITS + VERDICT_DIGITS;
    out[TIME_DIGITS..end].fill(b'-');
    out[end] = b'\n';
    end + 1
}

// A line of two numbers, each in so many digits.
fn write_numbers(out: &mut [u8], n: usize, first: u64, m: usize, second: u64) -> usize
    requires { n + m + 1 ≤ length out.old }
    ensures { Wrote out.old (reply_line n first m second) result out.new }
{
    write_digits(out, 0, n, first);
    write_digits(out, n, m, second);
    let end = n + m;
    out[end] = b'\n';
    end + 1
}
