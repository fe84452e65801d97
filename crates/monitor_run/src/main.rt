// Runs what the documents want compared and the text program cannot show: the spans after each event and heartbeat, stores, records and times that no
// frame reaches, lists that change between calls, the reader. After each call stand its answer, the record's clock, its last event's time and row count,
// and the store. p is bit 0 and q is bit 1 of the mask. The list has the table's last row alone where nothing else is said.

#![tactic(auto)]

use lines::reader::frame_at;
use monitor::answer::Accepted;
use monitor::start::start;
use monitor::step;
use rules::limits::ROW_NUMBERS;
use soundness::record::{Record, nothing_seen};
use soundness::setup::Setup;
use std::io;
use std::io::Stdout;
use times::interval::NO_END;

const P: u32 = 1;

const Q: u32 = 2;

// Bit 31.
const HEARTBEAT: u32 = 2_147_483_648;

// The last time that is taken, and the next.
const LAST: u64 = 281_474_976_710_655;

const LATE: u64 = 281_474_976_710_656;

// Once [1,2] of once [1,2] of (p or q).
const ONCE_ONCE: [[u32; ROW_NUMBERS]; 6] = [
    [1, 0, 0, 0, 0],
    [1, 1, 0, 0, 0],
    [4, 0, 1, 0, 0],
    [0, 0, 0, 0, 0],
    [6, 3, 2, 1, 2],
    [6, 3, 4, 1, 2],
];

// The same by rows of kind 7.
const ONCE_ROWS: [[u32; ROW_NUMBERS]; 5] = [
    [1, 0, 0, 0, 0],
    [1, 1, 0, 0, 0],
    [4, 0, 1, 0, 0],
    [7, 2, 0, 1, 2],
    [7, 3, 0, 1, 2],
];

// Not once [1,2] not p.
const ALWAYS: [[u32; ROW_NUMBERS]; 5] = [
    [1, 0, 0, 0, 0],
    [2, 0, 0, 0, 0],
    [0, 0, 0, 0, 0],
    [6, 2, 1, 1, 2],
    [2, 3, 0, 0, 0],
];

// The same by a row of kind 8.
const ALWAYS_ROW: [u32; 10] = [1, 0, 0, 0, 0, 8, 0, 0, 1, 2];

// p since [2,3] q; the same without its last number; p since [4,4] q, which needs six words.
const SINCE: [u32; 15] = [1, 0, 0, 0, 0, 1, 1, 0, 0, 0, 6, 0, 1, 2, 3];

const CUT: [u32; 14] = [1, 0, 0, 0, 0, 1, 1, 0, 0, 0, 6, 0, 1, 2];

const SIX_WORDS: [u32; 15] = [1, 0, 0, 0, 0, 1, 1, 0, 0, 0, 6, 0, 1, 4, 4];

// Once [2,2] p; once [1000, no end] p.
const ONCE_TWO: [u32; 15] = [1, 0, 0, 0, 0, 0, 0, 0, 0, 0, 6, 1, 0, 2, 2];

const ONCE_EVER: [u32; 15] = [1, 0, 0, 0, 0, 0, 0, 0, 0, 0, 6, 1, 0, 1000, NO_END];

// The last of three rows.
const THIRD: [u32; 1] = [2];

// Seventeen rows, and all but the first of them, as many as a list may have.
const SEVENTEEN: [u32; 17] = [0, 1, 2, 3, 4, 5, 6, 7, 8, 9, 10, 11, 12, 13, 14, 15, 16];

const SIXTEEN: [u32; 16] = [1, 2, 3, 4, 5, 6, 7, 8, 9, 10, 11, 12, 13, 14, 15, 16];

fn main(rt: HostRuntime) -> io::Result<()> {
    let out = rt.stdout();
    tables(out)?;
    spans(out)?;
    heartbeats(out)?;
    rings(out)?;
    stores(out)?;
    records(out)?;
    clocks(out)?;
    lists(out)?;
    refused_lists(out)?;
    dead_rows(out)?;
    other_lists(out)?;
    reader(
        out,
        b"00020000000103\n00ab00000000ab\n00050000000006\n0007000000000",
    )
}

fn by<'a>(table: &'a [u32], list: &'a [u32]) -> Setup<'a> {
    Setup { table, list }
}

// Source 001, Tables 3, 4 and 5; time is their index k.
fn tables(out: Stdout) -> io::Result<()> {
    let times = [1, 2, 3, 4, 5, 6];
    println!(out; "-- Table 3: once [1,2] of once [1,2] of (p or q)")?;
    stream(
        out,
        by(ONCE_ONCE.as_flattened(), &[5]),
        &times,
        &[P, 0, 0, 0, Q, 0],
    )?;
    println!(out; "-- Table 3, by rows of kind 7")?;
    stream(
        out,
        by(ONCE_ROWS.as_flattened(), &[4]),
        &times,
        &[P, 0, 0, 0, Q, 0],
    )?;
    println!(out; "-- Table 4: always [1,2] p")?;
    stream(
        out,
        by(ALWAYS.as_flattened(), &[4]),
        &times,
        &[0, 0, P, P, P, 0],
    )?;
    println!(out; "-- Table 4, by a row of kind 8")?;
    stream(out, by(&ALWAYS_ROW, &[1]), &times, &[0, 0, P, P, P, 0])?;
    println!(out; "-- Table 5: p since [2,3] q")?;
    stream(out, by(&SINCE, &THIRD), &times, &[0, Q, P, P, P + Q, P])
}

fn spans(out: Stdout) -> io::Result<()> {
    println!(out; "-- once [2,2] p, p at 0 and 2")?;
    stream(out, by(&ONCE_TWO, &THIRD), &[0, 2, 4, 5], &[P, P, 0, 0])?;
    println!(out; "-- once [1000, no end] p")?;
    stream(
        out,
        by(&ONCE_EVER, &THIRD),
        &[0, 999, 1000, LAST],
        &[P, P, 0, 0],
    )
}

// A heartbeat clips the spans and moves the clock; its other bits are ignored, and what the record tells of the last event stays. Refusal 5 compares
// with the clock, also before any event.
fn heartbeats(out: Stdout) -> io::Result<()> {
    println!(out; "-- p since [2,3] q, and heartbeats")?;
    stream(
        out,
        by(&SINCE, &THIRD),
        &[2, 5, 6, 8, 8, 9, 8],
        &[Q, P + Q, HEARTBEAT, HEARTBEAT + Q, P, HEARTBEAT, HEARTBEAT],
    )?;
    println!(out; "-- p since [2,3] q, a heartbeat before any event")?;
    stream(
        out,
        by(&SINCE, &THIRD),
        &[5, 4, 5, 6],
        &[HEARTBEAT, Q, Q, HEARTBEAT],
    )
}

// The first place goes on, round, with each span dropped, by an event or a heartbeat, and is 0 where none is left. Then records that were never reached:
// sound with a first place of 1; not sound with one outside the stretch, of a row that holds no span, of one without a stretch.
fn rings(out: Stdout) -> io::Result<()> {
    let once = by(&ONCE_TWO, &THIRD);
    println!(out; "-- once [2,2] p, p at every other millisecond")?;
    stream(
        out,
        once,
        &[0, 2, 4, 6, 7, 8, 9],
        &[P, P, P, P, HEARTBEAT, 0, P],
    )?;
    println!(out; "-- once [2,2] p, from first places that were never reached")?;
    let mut space = [0, 0, 4, 4];
    let store: &mut [u64] = &mut space;
    let mut kept = nothing_seen(3);
    kept.seen = 1;
    kept.clock = 4;
    kept.last = 4;
    kept.counts[2] = 1;
    kept.firsts[2] = 2;
    call(out, once, store, &mut kept, 4, P)?;
    kept.firsts[2] = 1;
    kept.firsts[1] = 1;
    call(out, once, store, &mut kept, 4, P)?;
    kept.firsts[1] = 0;
    call(out, once, store, &mut kept, 4, P)?;
    call(out, once, store, &mut kept, 7, 0)?;
    kept.firsts[2] = 1;
    call(out, once, store, &mut kept, 7, 0)
}

fn stores(out: Stdout) -> io::Result<()> {
    println!(out; "-- once [2,2] p on need - 1 words, and on need words")?;
    let mut short = [9; 3];
    begin(out, by(&ONCE_TWO, &THIRD), &mut short)?;
    let mut enough = [9; 4];
    begin(out, by(&ONCE_TWO, &THIRD), &mut enough)?;
    Ok(())
}

// At 10 neither p nor q and still a span, and the clock at 11: sound, but never reached. With the event at 9 the span's last would be too late.
// Between its events refusals 1, 4, 7, 6 and 5.
fn records(out: Stdout) -> io::Result<()> {
    let since = by(&SINCE, &THIRD);
    println!(out; "-- p since [2,3] q, from a record that was never reached")?;
    let mut space = [12, 13, 0, 0, 9];
    let store: &mut [u64] = &mut space;
    let mut kept = nothing_seen(3);
    kept.seen = 1;
    kept.clock = 11;
    kept.last = 10;
    kept.counts[2] = 1;
    let mut found = kept;
    call(out, since, store, &mut at_times(kept, 11, 9), 11, P)?;
    run(out, since, store, &mut kept, &[11, 13], &[P, P + Q])?;
    call(out, by(&CUT, &THIRD), store, &mut kept, 14, P)?;
    call(out, by(&SIX_WORDS, &THIRD), store, &mut kept, 14, P)?;
    call(out, since, store, &mut found, 14, P)?;
    run(
        out,
        since,
        store,
        &mut kept,
        &[LATE, 12, 14, 15],
        &[P, P, P, Q],
    )
}

// A span without end from 2000. Not sound: the last event after the clock; the first above clock and event time + a; the first below the clock. Sound:
// the clock at 2000. Then no event seen: with an event's time not sound, without it sound.
fn clocks(out: Stdout) -> io::Result<()> {
    let ever = by(&ONCE_EVER, &THIRD);
    println!(out; "-- once [1000, no end] p, from records that were never reached")?;
    let mut space = [2000, u64::MAX];
    let store: &mut [u64] = &mut space;
    let mut kept = nothing_seen(3);
    kept.seen = 1;
    kept.counts[2] = 1;
    for (clock, last) in [(2000, 2001), (1999, 10), (2001, 10), (2000, 10)] {
        call(out, ever, store, &mut at_times(kept, clock, last), 2001, 0)?;
    }
    println!(out; "-- once [1000, no end] p, from a clock with no event seen")?;
    let mut space = [0, 0];
    let store: &mut [u64] = &mut space;
    let unseen = nothing_seen(3);
    for last in [1, 0] {
        call(out, ever, store, &mut at_times(unseen, 2000, last), 2001, P)?;
    }
    Ok(())
}

// Two rows judged at once, p and the last; sixteen, all of them true, the last of which is "row 0 or row 0"; seventeen, which are refused.
fn lists(out: Stdout) -> io::Result<()> {
    println!(out; "-- p since [2,3] q, p judged beside it")?;
    stream(
        out,
        by(&SINCE, &[0, 2]),
        &[1, 2, 3, 4, 5, 6],
        &[0, Q, P, P, P + Q, P],
    )?;
    println!(out; "-- true in 17 rows, 16 of them judged, and 17")?;
    let mut table = [0; 17 * ROW_NUMBERS];
    table[16 * ROW_NUMBERS] = 4;
    stream(out, by(&table, &SIXTEEN), &[1], &[0])?;
    stream(out, by(&table, &SEVENTEEN), &[1], &[0])
}

// Refusal 10; refusal 1 is before it, and 4 after it.
fn refused_lists(out: Stdout) -> io::Result<()> {
    println!(out;
        "-- p since [2,3] q, starts: no row, two that do not rise, the same twice, one past the table"
    )?;
    let mut space = [9; 5];
    let store: &mut [u64] = &mut space;
    begin(out, by(&SINCE, &[]), store)?;
    begin(out, by(&SINCE, &[2, 0]), store)?;
    begin(out, by(&SINCE, &[2, 2]), store)?;
    begin(out, by(&SINCE, &[3]), store)?;
    println!(out; "-- no row, of a table cut short, and on too few words")?;
    begin(out, by(&CUT, &[]), store)?;
    begin(out, by(&SIX_WORDS, &[]), store)?;
    Ok(())
}

// Refusal 11, with the lowest row that is dead; 10 is before it, and 4 after it.
fn dead_rows(out: Stdout) -> io::Result<()> {
    println!(out; "-- p since [2,3] q, starts: p and q alone listed, q alone, p alone")?;
    let mut space = [9; 5];
    let store: &mut [u64] = &mut space;
    begin(out, by(&SINCE, &[0, 1]), store)?;
    begin(out, by(&SINCE, &[1]), store)?;
    begin(out, by(&SINCE, &[0]), store)?;
    println!(out; "-- q twice, and q on too few words")?;
    begin(out, by(&SINCE, &[1, 1]), store)?;
    begin(out, by(&SIX_WORDS, &[1]), store)?;
    Ok(())
}

// The record and the store hold every row, so each call may have a list of its own; one that does not pass, or leaves a row dead, changes nothing.
fn other_lists(out: Stdout) -> io::Result<()> {
    println!(out; "-- p since [2,3] q, by another list with each call")?;
    let mut space = [9; 5];
    let store: &mut [u64] = &mut space;
    let mut kept = begin(out, by(&SINCE, &THIRD), store)?;
    run(out, by(&SINCE, &THIRD), store, &mut kept, &[1, 2], &[0, Q])?;
    call(out, by(&SINCE, &[0, 2]), store, &mut kept, 3, P)?;
    call(out, by(&SINCE, &[]), store, &mut kept, 4, P)?;
    call(out, by(&SINCE, &[0, 1]), store, &mut kept, 4, P)?;
    call(out, by(&SINCE, &[0, 1, 2]), store, &mut kept, 4, P)?;
    call(out, by(&SINCE, &[2, 3]), store, &mut kept, 5, P)?;
    run(
        out,
        by(&SINCE, &THIRD),
        store,
        &mut kept,
        &[5, 6],
        &[P + Q, P],
    )
}

// The record with other times, which its spans need not fit.
fn at_times(kept: Record, clock: u64, last: u64) -> Record {
    Record {
        clock,
        last,
        ..kept
    }
}

// A good line, a line in small letters, a wrong sum, a line that the end cuts off, and the end.
fn reader(out: Stdout, text: &[u8]) -> io::Result<()> {
    println!(out; "-- the reader")?;
    let mut place = 0;
    for _ in 0..5 {
        place = read(out, text, place)?;
    }
    read(out, text, usize::MAX)?;
    Ok(())
}

// A start on words that hold 9, and calls.
fn stream(out: Stdout, setup: Setup, times: &[u64], masks: &[u32]) -> io::Result<()> {
    let mut space = [9; 5];
    let store: &mut [u64] = &mut space;
    let mut kept = begin(out, setup, store)?;
    run(out, setup, store, &mut kept, times, masks)
}

fn begin(out: Stdout, setup: Setup, store: &mut [u64]) -> io::Result<Record> {
    let mut kept = nothing_seen(0);
    match start(setup, store, &mut kept) {
        Ok(need) => print!(out; "start: need {need}")?,
        Err(why) => print!(out; "start: {why}")?,
    }
    left(out, &kept, store)?;
    Ok(kept)
}

// A call at each time.
fn run(
    out: Stdout,
    setup: Setup,
    store: &mut [u64],
    kept: &mut Record,
    times: &[u64],
    masks: &[u32],
) -> io::Result<()> {
    for (time, mask) in times.iter().zip(masks) {
        call(out, setup, store, kept, *time, *mask)?;
    }
    Ok(())
}

// Beside the answer to a heartbeat: whether an event was seen, and the truths at it of the first three rows.
fn call(
    out: Stdout,
    setup: Setup,
    store: &mut [u64],
    kept: &mut Record,
    time: u64,
    mask: u32,
) -> io::Result<()> {
    print!(out; "event {time}, mask {mask}")?;
    match step::event(setup, store, kept, time, mask) {
        Ok(Accepted::Verdict(number)) => print!(out; ": verdict {number}")?,
        Ok(Accepted::ClockMoved) => {
            let [zero, one, two, ..] = kept.truths;
            print!(out;
                ": clock moved, seen {}, truths {zero} {one} {two}",
                kept.seen
            )?;
        }
        Err(why) => print!(out; ": {why}")?,
    }
    left(out, kept, store)
}

// The times, the row count, the first place of row 2, which in most of these tables has a stretch, and the store.
fn left(out: Stdout, kept: &Record, store: &[u64]) -> io::Result<()> {
    print!(out;
        ", clock {}, last {}, rows {}, first {}, store",
        kept.clock, kept.last, kept.rows, kept.firsts[2]
    )?;
    for word in store {
        print!(out; " {word}")?;
    }
    println!(out)
}

fn read(out: Stdout, text: &[u8], place: usize) -> io::Result<usize> {
    let read = frame_at(text, place);
    print!(out; "at {place}: ")?;
    match read.found {
        None => print!(out; "end")?,
        Some(Ok(frame)) => print!(out; "counter {}, mask {}", frame.counter, frame.mask)?,
        Some(Err(why)) => print!(out; "{why}")?,
    }
    println!(out; ", next {}", read.next)?;
    Ok(read.next)
}
