// The line at a place of a text for C.

ghost use Rattle.board.specs.Numbers.{LineLeaves};

use codes::code::refusal_code;
use lines::frame;

// The end, a frame, whose counter and mask are written, or refusal 8 or 9. The place becomes the next one. Any place may be asked for.
pub fn muk_read_frame(text: &[u8], place: &mut u64, counter: &mut u16, mask: &mut u32) -> u32
    ensures { LineLeaves text.now place.old counter.old mask.old
        result place.new counter.new mask.new }
{
    let read = frame::read_frame(text, *place as usize);
    *place = read.next as u64;
    match read.found {
        None => 0,
        Some(Ok(frame)) => {
            *counter = frame.counter;
            *mask = frame.mask;
            1
        }
        Some(Err(fault)) => refusal_code(fault),
    }
}
