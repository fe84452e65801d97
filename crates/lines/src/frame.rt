// Frames (document 01, "Lines from the board"): counter and mask, six data bytes, read at a place of a lent text.

ghost use Rattle.std.specs.Prelude.{◌≡◌, ◌<◌, length, Some};
ghost use Rattle.lines.specs.Read.{found_said};
ghost use Rattle.lines.specs.Frame.{frame_numbers, read_frame, ReadsFrame};

use crate::digits::number;
use crate::line::line_digits;
use crate::read::Read;
use refusals::refusal::Refusal;

// Counter and mask.
const DATA_BYTES: usize = 6;

#[derive(Clone, Copy, Debug, PartialEq, Eq)]
pub struct Frame {
    pub counter: u16,
    pub mask: u32,
}

// What stands at a place, judged by form and sum alone: the end, a frame, 8 or 9. Any place may be asked for.
pub fn read_frame(text: &[u8], place: usize) -> Read<Frame>
    ensures { ReadsFrame text.now place result }
{
    Read::at(text, place, first_frame)
}

// The frame that a text begins with.
fn first_frame(rest: &[u8]) -> Result<Frame, Refusal>
    ensures { 0 < length rest.now → found_said frame_numbers (Some result) ≡ (read_frame rest.now 0).said }
{
    let digits = line_digits(rest, DATA_BYTES)?;
    Ok(Frame {
        counter: number(&digits[..4]) as u16,
        mask: number(&digits[4..12]) as u32,
    })
}
