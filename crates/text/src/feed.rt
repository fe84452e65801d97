// The text as it arrives, in pieces of any length: `step` for each piece, in order, and `finish` at the text's end. What they write, in order, is the
// transcript of the text, however it was cut.

ghost use Rattle.std.specs.Prelude.{◌&&◌, ◌≡◌, ◌*◌, ◌≤◌, leb, length};
ghost use Rattle.rules.specs.Limits.{row_limit, row_numbers};
ghost use Rattle.text.specs.Replies.{longest_reply};
ghost use Rattle.text.specs.Turn.{Room};
ghost use Rattle.text.specs.Feed.{ByteTaken, LineEnded, Stepped, text_end, Ended};

use crate::replies::LONGEST_REPLY;
use crate::state::State;
use rules::limits::{ROW_LIMIT, ROW_NUMBERS};

// How many bytes of a piece were taken, and how many bytes were written from the output's start.
#[derive(Clone, Copy, Debug, PartialEq, Eq)]
pub struct Fed {
    pub used: usize,
    pub wrote: usize,
}

// The bytes of a piece are taken as long as the output has room for the longest line: where not all were used, the caller empties the output
// and goes on from there. With a table that is lent too short for every row, or a state that counts more rows, nothing is used and all is left.
pub fn step(
    state: &mut State,
    table: &mut [u32],
    store: &mut [u64],
    piece: &[u8],
    out: &mut [u8],
) -> Fed
    ensures { Stepped state.old table.old store.old piece.now out.old
        state.new table.new store.new result out.new }
{
    let mut wrote = 0;
    if !is_ready(state.stage.rows, table.len()) {
        return Fed { used: 0, wrote };
    }
    for (used, &byte) in piece.iter().enumerate() {
        if out.len() - wrote < LONGEST_REPLY {
            return Fed { used, wrote };
        }
        wrote += take(state, byte, table, store, &mut out[wrote..]);
    }
    Fed {
        used: piece.len(),
        wrote,
    }
}

// The text's end: how many bytes it brings, from the output's start. Where the output has no room for the longest line nothing is written.
#[tactic(auto, unfolding(crate::specs::Feed::text_end))]
pub fn finish(state: &State, out: &mut [u8]) -> Option<usize>
    ensures { Ended (text_end state.now) out.old result out.new }
{
    if out.len() < LONGEST_REPLY {
        return None;
    }
    match state.stage.end(state.held.line()) {
        Some(reply) => Some(reply.write(out)),
        None => Some(0),
    }
}

// Whether no more rows are counted than the table has room for.
fn is_ready(rows: usize, size: usize) -> bool
    ensures { result ≡ (leb rows row_limit && leb (row_limit * row_numbers) size) }
{
    rows <= ROW_LIMIT && ROW_LIMIT * ROW_NUMBERS <= size
}

// A byte is held, and a line feed ends the line. How many bytes that brings.
#[tactic(auto, unfolding(crate::specs::Feed::byte_leaves, crate::specs::Feed::byte_text))]
fn take(state: &mut State, byte: u8, table: &mut [u32], store: &mut [u64], out: &mut [u8]) -> usize
    requires room { Room state.old.stage table.old }
    requires output { longest_reply ≤ length out.old }
    ensures { ByteTaken byte state.old table.old store.old out.old
        state.new table.new store.new result out.new }
{
    state.held.push(byte);
    if byte != b'\n' {
        return 0;
    }
    end_line(state, table, store, out)
}

// The line that is held has ended. Apart from `take`, so that a byte that ends no line sets nothing aside for what a line tells.
fn end_line(state: &mut State, table: &mut [u32], store: &mut [u64], out: &mut [u8]) -> usize
    requires room { Room state.old.stage table.old }
    requires output { longest_reply ≤ length out.old }
    ensures { LineEnded state.old table.old store.old out.old
        state.new table.new store.new result out.new }
{
    let reply = state.stage.turn(table, store, state.held.line());
    state.held.clear();
    match reply {
        Some(reply) => reply.write(out),
        None => 0,
    }
}
