// A reader that holds the captured text and its place in it (document 01, "Lines from the board"). `frame_at` makes one for a
// single call; the reader is run through it (`monitor_run`).

ghost use Rattle.std.specs.Prelude.{◌-◌, length};
ghost use Rattle.std.specs.Iterator.{at_most};
ghost use Rattle.lines.specs.Frame.{ReadsFrame};
ghost use Rattle.lines.specs.Reader.{NextFrame};

use crate::frame::{Frame, read_frame};
use crate::read::Read;
use refusals::refusal::Refusal;

#[derive(Drop)]
pub struct Reader<'a> {
    pub text: &'a [u8],
    pub place: usize,
}

impl<'a> Reader<'a> {
    // What is found at the place, which moves on.
    pub fn next_frame<'s>(&'s mut self) -> Option<Result<Frame, Refusal>>
        ensures { NextFrame self.old result self.new }
    {
        let read = read_frame(self.text, self.place);
        self.place = read.next;
        read.found
    }
}

// What is found, line after line, until the text ends.
impl<'a> Iterator for Reader<'a> {
    type Item = Result<Frame, Refusal>;

    ghost next_gives = { NextFrame };

    ghost remaining = { λ reader. at_most (length reader.text.now - reader.place) };

    fn next(&mut self) -> Option<Result<Frame, Refusal>> {
        self.next_frame()
    }
}

// What is found at a place of a text, and the place to read at next, by a reader of its own.
pub fn frame_at(text: &[u8], place: usize) -> Read<Frame>
    ensures { ReadsFrame text.now place result }
{
    let mut reader = Reader { text, place };
    let found = reader.next_frame();
    Read {
        found,
        next: reader.place,
    }
}
