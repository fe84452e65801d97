// What is kept of a text that is still arriving: the bytes of one unfinished line, the part of the text that it stands in, and the monitor's
// record. Its size is fixed: a line of any length needs no more.

ghost use Rattle.std.specs.Prelude.{◌≡◌};
ghost use Rattle.text.specs.Held.{held_line, holding, emptied};
ghost use Rattle.text.specs.Feed.{fresh};

use lines::list::LINE_BYTES;
use row_list::list::{LIST_LIMIT, RowList};
use soundness::record::{Record, nothing_seen};

// No good line is longer than a list line of the most row numbers, with its line feed.
pub const LINE_LIMIT: usize = LINE_BYTES;

// The first bytes of an unfinished line. Of a line that is longer than any good one no more is held. An array and a count: no heap, and an answer
// for every count, one past the limit too.
#[derive(Clone, Copy)]
pub struct Held {
    pub bytes: [u8; LINE_LIMIT],
    pub count: usize,
}

impl Held {
    // One byte more of the line.
    #[tactic(auto, unfolding(crate::specs::Held::holding))]
    pub(crate) fn push(&mut self, byte: u8)
        ensures { self.new ≡ holding self.old byte }
    {
        if self.count < LINE_LIMIT {
            self.bytes[self.count] = byte;
            self.count += 1;
        }
    }

    // The line has ended, and the next one begins.
    pub(crate) fn clear(&mut self)
        ensures { self.new ≡ emptied self.old }
    {
        self.count = 0;
    }

    // The line as far as it is held.
    pub(crate) fn line(&self) -> &[u8]
        ensures { result.now ≡ held_line self.now }
    {
        &self.bytes[..self.count.min(LINE_LIMIT)]
    }
}

#[derive(Clone, Copy, Debug, PartialEq, Eq)]
pub enum Part {
    // Rule lines, up to the list line or the empty line.
    Rules,
    // After the list line only the empty line may stand.
    Listed,
    // The frames after it.
    Frames,
    // After a refusal up to or at the empty line nothing more is written.
    Over,
}

#[derive(Clone, Copy)]
pub struct Stage {
    pub part: Part,
    // Rule lines read: so many rows stand in the table that is lent.
    pub rows: usize,
    // The rows whose formulas are judged: those of the list line, or at the empty line the last row; none before.
    pub list: RowList,
    pub found: Record,
}

#[derive(Clone, Copy)]
pub struct State {
    pub held: Held,
    pub stage: Stage,
}

// The state before the first byte of a text.
#[tactic(auto, unfolding(crate::specs::Feed::fresh))]
pub fn fresh() -> State
    ensures { result ≡ fresh }
{
    State {
        held: Held {
            bytes: [0; LINE_LIMIT],
            count: 0,
        },
        stage: Stage {
            part: Part::Rules,
            rows: 0,
            list: RowList {
                rows: [0; LIST_LIMIT],
                count: 0,
            },
            found: nothing_seen(0),
        },
    }
}
