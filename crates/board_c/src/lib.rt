// The library as firmware links it; include/muktrashi.h declares it. Each function is that of `board` under the same name, and promises the same.

#![tactic(auto)]

ghost use Rattle.std.specs.Prelude.{◌≡◌};
ghost use Rattle.soundness.specs.Setup.{setup_of};
ghost use Rattle.monitor.specs.Step as Step;
ghost use Rattle.board.specs.Left.{StartLeaves, CallLeaves};
ghost use Rattle.board.specs.Numbers.{CheckLeaves, TimeLeaves, LineLeaves};
ghost use Rattle.board.specs.Version.{version};

use soundness::record::Record;

// The library's version.
#[unsafe(no_mangle)]
pub extern "C" fn muk_version() -> u32
    ensures { result ≡ version }
{
    board::version::muk_version()
}

// Refusals 1 to 3; or 0, and the row count and the need are written.
#[unsafe(no_mangle)]
pub extern "C" fn muk_check(table: &[u32], rows: &mut u32, need: &mut u64) -> u32
    ensures { CheckLeaves table.now rows.old need.old result rows.new need.new }
{
    board::table::muk_check(table, rows, need)
}

// Refusals 1 to 3, 10, 11 and 4, and an all-zero record; or a record that has seen no event, its clock 0, and zeros in the words of the need.
#[unsafe(no_mangle)]
pub extern "C" fn muk_start(
    table: &[u32],
    list: &[u32],
    store: &mut [u64],
    kept: &mut Record,
) -> u32
    ensures { StartLeaves (setup_of table.now list.now) store.old result kept.new store.new }
{
    board::start::muk_start(table, list, store, kept)
}

// Refusals 1 to 3, 10, 11, 4, then 7, 6, 5, or the verdict; of a heartbeat, that the clock moved.
#[unsafe(no_mangle)]
pub extern "C" fn muk_event(
    table: &[u32],
    list: &[u32],
    store: &mut [u64],
    kept: &mut Record,
    time: u64,
    mask: u32,
) -> u32
    ensures { CallLeaves (setup_of table.now list.now) store.old kept.old (Step.event time mask)
        result kept.new store.new }
{
    board::event::muk_event(table, list, store, kept, time, mask)
}

// What `muk_event` answers at the time that the counter shows.
#[unsafe(no_mangle)]
pub extern "C" fn muk_frame(
    table: &[u32],
    list: &[u32],
    store: &mut [u64],
    kept: &mut Record,
    counter: u16,
    mask: u32,
) -> u32
    ensures { CallLeaves (setup_of table.now list.now) store.old kept.old (Step.frame counter mask)
        result kept.new store.new }
{
    board::frame::muk_frame(table, list, store, kept, counter, mask)
}

// Refusal 6 where the clock is over the limit; or 0, and the time that the counter shows since the clock is written.
#[unsafe(no_mangle)]
pub extern "C" fn muk_frame_time(clock: u64, counter: u16, time: &mut u64) -> u32
    ensures { TimeLeaves clock counter time.old result time.new }
{
    board::frame_time::muk_frame_time(clock, counter, time)
}

// The end, a frame, whose counter and mask are written, or refusal 8 or 9. The place becomes the next one. Any place may be asked for.
#[unsafe(no_mangle)]
pub extern "C" fn muk_read_frame(
    text: &[u8],
    place: &mut u64,
    counter: &mut u16,
    mask: &mut u32,
) -> u32
    ensures { LineLeaves text.now place.old counter.old mask.old
        result place.new counter.new mask.new }
{
    board::line::muk_read_frame(text, place, counter, mask)
}
