// Runs of events and of frames over `call_runs`, by p since [2,3] q, with heartbeats and refused calls between. Each run writes the codes of its answers, in
// hexadecimal (a verdict is a bit for each listed row, a moved clock bit 31, a refusal its number and its row), then the record and the store that it left.

#![tactic(auto)]

use call_runs::run::{run_events, run_frames};
use monitor::start::start;
use soundness::record::{Record, nothing_seen};
use soundness::setup::Setup;
use std::io;
use std::io::Stdout;

// p is bit 0, q is bit 1 and the heartbeat's is bit 31 of the mask. The same rule with a kind 9 in row 2, which is refused.
const P: u32 = 1;

const Q: u32 = 2;

const HEARTBEAT: u32 = 2_147_483_648;

const SINCE: [u32; 15] = [1, 0, 0, 0, 0, 1, 1, 0, 0, 0, 6, 0, 1, 2, 3];

const KIND_9: [u32; 15] = [1, 0, 0, 0, 0, 1, 1, 0, 0, 0, 9, 0, 1, 2, 3];

// Lists: of the last row, and of p and the last row.
const LAST_ROW: [u32; 1] = [2];

const BOTH: [u32; 2] = [0, 2];

// The four words of the need, and one past it.
const WORDS: usize = 5;

// The places for answers, and what a place holds that no code was written to.
const PLACES: usize = 8;

const UNWRITTEN: u32 = 4_294_967_295;

// The last time that is accepted; its low sixteen bits are all ones.
const LIMIT: u64 = 281_474_976_710_655;

fn main(rt: HostRuntime) -> io::Result<()> {
    let out = rt.stdout();
    let since = Setup {
        table: &SINCE,
        list: &LAST_ROW,
    };
    println!(out; "-- events, one over the limit of time and one below the clock")?;
    let mut space = [9; WORDS];
    let store: &mut [u64] = &mut space;
    let mut kept = nothing_seen(0);
    _ = start(since, store, &mut kept);
    events(
        out,
        since,
        store,
        &mut kept,
        &[1, 2, 3, LIMIT + 1, 2, 4],
        &[0, Q, P, P, P, P + Q],
    )?;
    println!(out;
        "-- on from there: by another table, by a list past the table, with an unsound clock, and as it was left"
    )?;
    let another = Setup {
        table: &KIND_9,
        list: &LAST_ROW,
    };
    events(out, another, store, &mut kept, &[5, 6], &[P, P])?;
    let past = Setup {
        table: &SINCE,
        list: &[3],
    };
    events(out, past, store, &mut kept, &[5, 6], &[P, P])?;
    let mut unsound = Record { clock: 9, ..kept };
    events(out, since, store, &mut unsound, &[5, 6], &[P, P])?;
    events(out, since, store, &mut kept, &[5, LIMIT - 10], &[P, Q])?;
    println!(out;
        "-- frames from there, p judged too, one a heartbeat and one over the limit of time"
    )?;
    frames(
        out,
        store,
        &mut kept,
        &[65_528, 65_530, 3, 65_535],
        &[P, HEARTBEAT, P, P],
    )?;
    println!(out; "-- heartbeats: before any event, after two, and before two more, one refused")?;
    begun_again(out, since, &[7], &[HEARTBEAT + P])?;
    begun_again(out, since, &[1, 2, 4], &[Q, P, HEARTBEAT + Q])?;
    begun_again(out, since, &[1, 2, 4, 3, 4], &[Q, P, HEARTBEAT + Q, P, P])?;
    println!(out; "-- fewer masks, fewer times, no masks, fewer places for answers")?;
    begun_again(out, since, &[1, 2, 3, 4], &[0, Q, P])?;
    begun_again(out, since, &[1, 2], &[0, Q, P, P])?;
    begun_again(out, since, &[1, 2], &[])?;
    begun_again(
        out,
        since,
        &[1, 1, 1, 1, 2, 2, 2, 2, 3, 4],
        &[Q, Q, 0, 0, 0, 0, 0, Q, P, P],
    )
}

fn begun_again(out: Stdout, setup: Setup, times: &[u64], masks: &[u32]) -> io::Result<()> {
    let mut space = [9; WORDS];
    let store: &mut [u64] = &mut space;
    let mut kept = nothing_seen(0);
    _ = start(setup, store, &mut kept);
    events(out, setup, store, &mut kept, times, masks)
}

fn events(
    out: Stdout,
    setup: Setup,
    store: &mut [u64],
    kept: &mut Record,
    times: &[u64],
    masks: &[u32],
) -> io::Result<()> {
    let mut answers = [UNWRITTEN; PLACES];
    run_events(setup, store, kept, times, masks, &mut answers);
    told(out, store, kept, &answers)
}

fn frames(
    out: Stdout,
    store: &mut [u64],
    kept: &mut Record,
    counters: &[u16],
    masks: &[u32],
) -> io::Result<()> {
    let setup = Setup {
        table: &SINCE,
        list: &BOTH,
    };
    let mut answers = [UNWRITTEN; PLACES];
    run_frames(setup, store, kept, counters, masks, &mut answers);
    told(out, store, kept, &answers)
}

// The codes; seen, clock, last and rows; the truth, the span count and the first place of the row that is judged; and the words.
fn told(out: Stdout, store: &[u64], kept: &Record, answers: &[u32]) -> io::Result<()> {
    print!(out; "codes")?;
    for code in answers {
        if *code != UNWRITTEN {
            print!(out; " {code:08x}")?;
        }
    }
    let Record {
        seen,
        clock,
        last,
        rows,
        truths,
        counts,
        firsts,
    } = kept;
    print!(out;
        "\n  record: {seen} {clock} {last} {rows} {} {} {}",
        truths[2], counts[2], firsts[2]
    )?;
    print!(out; "\n  store:")?;
    for word in store {
        print!(out; " {word}")?;
    }
    println!(out)
}
