// What a call answers, as one 32-bit number.

ghost use Rattle.std.specs.Prelude.{◌≡◌};
ghost use Rattle.refusals.specs.Refusals.{refused};
ghost use Rattle.monitor.specs.Step.{said};
ghost use Rattle.codes.specs.Code.{refusal_code, code_of};

use monitor::answer::Accepted;
use refusals::refusal::Refusal;

// Sixteen bits are left for a verdict.
pub const VERDICT_ROOM: u32 = 65_536;

// "clock moved": bit 31 alone.
pub const MOVED_CODE: u32 = 2_147_483_648;

// The verdict; that the clock moved; or the refusal's code.
pub fn code(answer: Result<Accepted, Refusal>) -> u32
    ensures { result ≡ code_of (said answer) }
{
    match answer {
        Ok(Accepted::Verdict(number)) => u32::from(number),
        Ok(Accepted::ClockMoved) => MOVED_CODE,
        Err(fault) => refusal_code(fault),
    }
}

// A refusal's number above the verdict's bits, and its row in them.
pub fn refusal_code(fault: Refusal) -> u32
    ensures { result ≡ refusal_code (refused fault) }
{
    fault.number() * VERDICT_ROOM + fault.row() % VERDICT_ROOM
}
