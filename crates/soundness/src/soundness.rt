// Whether record and store are sound for a table that passes (document 01, "A record is sound when all of these hold"), for any values at all. Each row
// of the table is decoded once; what stands past them is only held to 0.

ghost use Rattle.std.specs.Prelude.{◌&&◌, ◌||◌, ◌≡◌, ◌≤◌, ◌<◌, eqb, leb, length, get_or};
ghost use Rattle.rules.specs.Limits.{row_limit};
ghost use Rattle.rules.specs.Rows.{rows_of};
ghost use Rattle.rules.specs.Stretches.{spans_of, width};
ghost use Rattle.times.specs.Times.{time_limit};
ghost use Rattle.soundness.specs.Record.{was_seen, held_at};
ghost use Rattle.soundness.specs.Soundness.{every, truth_byte?, sound_entry?, sound_limits?, sound_row?, zero_past?, sound_times?, sound?};
ghost use Rattle.soundness.specs.Ready.{TableReady};

use crate::record::Record;
use rules::limits::ROW_NUMBERS;
use rules::numbers::{Numbers, numbers_at};
use rules::stretch;
use sound_spans::stretch::{Bounds, sound};
use spans::reached::last_reached;
use spans::ring::SPAN_WORDS;
use spans::stretch::Held;
use times::time::TIME_LIMIT;

// The row count, the times, each row of the table, and what stands past them.
pub(crate) fn is_sound(table: &[u32], store: &[u64], found: &Record) -> bool
    requires { TableReady table.now (length store.now) }
    ensures { result ≡ sound? table.now store.now found.now }
{
    let rows = table.len() / ROW_NUMBERS;
    found.rows as usize == rows
        && sound_times(found.seen, found.clock, found.last)
        && sound_rows(table, store, rows, found)
        && zero_past(rows, found)
}

// The last event's time is not after the clock, the clock within the limit; before any event its time is 0.
fn sound_times(seen: u8, clock: u64, last: u64) -> bool
    ensures { result ≡ sound_times? seen clock last }
{
    seen <= 1 && last <= clock && clock <= TIME_LIMIT && (seen == 1 || last == 0)
}

// Each row of the table, their stretches one after the other.
fn sound_rows(table: &[u32], store: &[u64], rows: usize, found: &Record) -> bool
    requires table_ready { TableReady table.now (length store.now) }
    requires counted { (rows ≡ rows_of table.now) × (found.now.last ≤ time_limit) }
    ensures { result ≡ every rows (sound_row? table.now store.now found.now) }
{
    let mut from = 0;
    for row in 0..rows {
        let numbers = numbers_at(table, row);
        let spans = stretch::spans(numbers);
        let end = from + SPAN_WORDS * spans as usize;
        if !sound_row(&store[from..end], numbers, spans, row, found) {
            return false;
        }
        from = end;
    }
    true
}

// One row: what the record says of it, and its stretch, which has no words where the row needs no spans; its first place is then 0.
#[tactic(auto, using(crate::proofs::SoundnessLaws::entry_within, crate::proofs::SoundnessLaws::bare_sound))]
fn sound_row(words: &[u64], numbers: Numbers, spans: u64, row: usize, found: &Record) -> bool
    requires { (spans ≡ spans_of numbers) × (length words.now ≡ width numbers) × (row < row_limit) × (found.now.last ≤ time_limit) }
    ensures { result ≡ (sound_entry? (was_seen found.now) (get_or found.now.truths row 0) (get_or found.now.counts row 0) numbers
        && sound_limits? words.now (held_at found.now row) found.now.clock found.now.last numbers) }
{
    let held = Held {
        first: found.firsts[row] as usize,
        count: found.counts[row] as usize,
    };
    sound_entry(spans, found.seen == 1, found.truths[row], found.counts[row])
        && if spans == 0 {
            held.first == 0
        } else {
            sound_stretch(words, held, found.clock, found.last, numbers)
        }
}

// A row's truth and span count: a byte 0 or 1, within the figure, and false and 0 if no event was seen.
fn sound_entry(spans: u64, seen: bool, truth: u8, count: u32) -> bool
    ensures { result ≡ (truth_byte? truth && leb count spans && (seen || (eqb truth 0 && eqb count 0))) }
{
    truth <= 1 && u64::from(count) <= spans && (seen || (truth == 0 && count == 0))
}

// One stretch, by the limits of its row: firsts from the clock on; the latest first, where b has no end, is the clock or later by the last event's time,
// and by that goes the latest last.
#[tactic(auto, using(crate::proofs::SoundnessLaws::reached_within))]
fn sound_stretch(words: &[u64], held: Held, clock: u64, last: u64, numbers: Numbers) -> bool
    requires { last ≤ time_limit }
    ensures { result ≡ sound_limits? words.now held clock last numbers }
{
    let limits = numbers.limits();
    let bounds = Bounds {
        time: clock,
        latest_first: clock.max(last + u64::from(limits.a)),
        latest_last: last_reached(last, limits),
        long: limits.length(),
    };
    sound(words, held, bounds)
}

// Past the table's rows every truth is false, and every span count and first place 0. Of a short table this is much of what a call costs, so all entries
// are put together before they are looked at.
fn zero_past(rows: usize, found: &Record) -> bool
    requires { rows ≤ row_limit }
    ensures { result ≡ every row_limit (zero_past? rows found.now.truths found.now.counts found.now.firsts) }
{
    let truth_bits = found.truths[rows..]
        .iter()
        .fold(0, |bits, truth| bits | truth);
    let count_bits = found.counts[rows..]
        .iter()
        .fold(0, |bits, count| bits | count);
    let first_bits = found.firsts[rows..]
        .iter()
        .fold(0, |bits, first| bits | first);
    (u32::from(truth_bits) | count_bits | first_bits) == 0
}
