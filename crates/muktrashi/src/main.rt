// The text program: standard input to standard output, nothing else (document 01, "The program's text"). It reads what is there, judges every
// whole line, writes, and only then waits again. Its memory is fixed.

#![tactic(auto)]

ghost use Rattle.std.specs.Prelude.{◌≤◌, length};
ghost use Rattle.text.specs.Replies.{longest_reply, Wrote};
ghost use Rattle.text.specs.Feed.{text_end};
ghost use Rattle.muktrashi.specs.Loop.{Lends, ReadyForWhole, TakenWhole, Looped};

use rules::limits::{ROW_LIMIT, ROW_NUMBERS};
use std::io::{Read, Stdin, Stdout, Write};
use text::feed::{Fed, finish, step};
use text::replies::LONGEST_REPLY;
use text::state::{State, fresh};

// "The program's store is 8,192 words."
const STORE_WORDS: usize = 8192;

const PIECE_BYTES: usize = 4096;

// Room for a line a byte, so that every piece is taken whole.
const OUTPUT_BYTES: usize = PIECE_BYTES * LONGEST_REPLY;

#[tactic(auto, unfolding(text::specs::Transcript::empty_store))]
fn main(rt: HostRuntime) {
    let mut table = [0u32; ROW_LIMIT * ROW_NUMBERS];
    let mut store = [0u64; STORE_WORDS];
    let mut piece = [0u8; PIECE_BYTES];
    let mut out = [0u8; OUTPUT_BYTES];
    run(
        rt.stdin(),
        rt.stdout(),
        &mut table,
        &mut store,
        &mut piece,
        &mut out,
    );
}

// The state that the loop ends in and how many pieces it took, which are told either way; and whether it ended at the text's end.
#[derive(Clone, Copy)]
struct Ran {
    state: State,
    turns: u64,
    ended: bool,
}

// A proved loop has to end, and nothing says that a text does: it counts its turns, up to a number that no run reaches.
fn run(
    stdin: Stdin,
    stdout: Stdout,
    table: &mut [u32],
    store: &mut [u64],
    piece: &mut [u8],
    out: &mut [u8],
) -> Ran
    requires { Lends table.old store.old piece.old out.old }
    ensures { Looped table.old result table.new store.new out.new }
{
    let mut state = fresh();
    for turns in 0..u64::MAX {
        let n = bytes_read(stdin, piece);
        if n == 0 {
            end(stdout, &state, out);
            return Ran {
                state,
                turns,
                ended: true,
            };
        }
        let fed = take_whole(&mut state, table, store, &piece[..n], out);
        if !took_all(stdout, &out[..fed.wrote]) {
            return Ran {
                state,
                turns: turns + 1,
                ended: false,
            };
        }
    }
    Ran {
        state,
        turns: u64::MAX,
        ended: false,
    }
}

// A step that leaves no byte of the piece: the output has room for a line a byte.
fn take_whole(
    state: &mut State,
    table: &mut [u32],
    store: &mut [u64],
    piece: &[u8],
    out: &mut [u8],
) -> Fed
    requires { ReadyForWhole state.old table.old piece.now out.old }
    ensures { TakenWhole state.old table.old store.old piece.now out.old
        state.new table.new store.new result out.new }
{
    step(state, table, store, piece, out)
}

// A read that ends, or fails, is the text's end. How many bytes it brings, from the output's start.
fn end(stdout: Stdout, state: &State, out: &mut [u8]) -> usize
    requires { longest_reply ≤ length out.old }
    ensures { Wrote out.old (text_end state.now) result out.new }
{
    let wrote = finish(state, out).unwrap_or(0);
    took_all(stdout, &out[..wrote]);
    wrote
}

// How many bytes of standard input a read brings, as soon as some are there. One that ends, or fails, brings none.
fn bytes_read(mut stdin: Stdin, piece: &mut [u8]) -> usize
    ensures { result ≤ length piece.new }
{
    stdin.read(piece).unwrap_or(0)
}

// Whether standard output took all of the text. After a write that fails it may have taken some of it.
fn took_all(mut stdout: Stdout, text: &[u8]) -> bool {
    stdout.write_all(text).is_ok()
}
