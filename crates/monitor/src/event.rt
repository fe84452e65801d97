// One event, rows rising (document 01, "Spans, store and record"): the record's truths, span counts and first places and the lent store, row by row. It
// refuses nothing; whoever calls has checked the table, the store, the record and the time. A row is judged from the few values that it needs.

ghost use Rattle.std.specs.Prelude.{true, false, List, ◌≡◌, ◌≤◌};
ghost use Rattle.meaning.specs.Heartbeat.{heartbeat?};
ghost use Rattle.meaning.specs.Interval.{end_of};
ghost use Rattle.meaning.specs.Spans as Spans;
ghost use Rattle.meaning.specs.Spans.{reached_from};
ghost use Rattle.kinds.specs.Kinds.{plain};
ghost use Rattle.rules.specs.Rows.{kept_by, feeder};
ghost use Rattle.spans.specs.Layout.{span_in};
ghost use Rattle.times.specs.Times.{time_limit};
ghost use Rattle.row_list.specs.Truths.{truth_at};
ghost use Rattle.soundness.specs.Setup.{setup_in};
ghost use Rattle.monitor.specs.Event.{previous_held, truth_by};
ghost use Rattle.monitor.specs.Step.{event, moment_of};
ghost use Rattle.monitor.specs.Core.{Unrefused, Left, RowReady, RowJudged};

use kinds::plain::Plain;
use kinds::rule::Rule;
use kinds::stretch::{Feed, Keep};
use row_list::verdict::truth_at;
use rules::limits::ROW_LIMIT;
use rules::numbers::{Numbers, numbers_at};
use rules::says::says;
use rules::stretch::words;
use soundness::record::Record;
use soundness::setup::Setup;
use spans::reached::last_reached;
use spans::stretch::{Held, Span, update};
use times::interval::Interval;
use times::mask::bit_set;

// An event, and what the record tells of the one before it, as the record has it: whether one was seen, when, and each row's truth at it.
#[derive(Drop)]
pub(crate) struct Arrival {
    pub(crate) time: u64,
    pub(crate) mask: u32,
    pub(crate) seen: u8,
    pub(crate) last: u64,
    pub(crate) truths: [u8; ROW_LIMIT],
}

// What judging a row gives: its truth, and what is held of its stretch.
#[derive(Clone, Copy)]
pub(crate) struct Judgement {
    pub(crate) truth: bool,
    pub(crate) held: Held,
}

// Every row is judged, from the truths of the lower rows; then an event was seen, at this time.
pub(crate) fn judge_rows(setup: Setup, store: &mut [u64], kept: &mut Record, time: u64, mask: u32)
    requires unrefused { Unrefused (setup_in setup) store.old kept.old time }
    requires no_beat { heartbeat? mask ≡ false }
    ensures { Left (moment_of (setup_in setup.entry) store.old kept.old (event time mask)) kept.new store.new }
{
    let arrival = Arrival {
        time,
        mask,
        seen: kept.seen,
        last: kept.last,
        truths: kept.truths,
    };
    let rows = kept.rows as usize;
    let mut from = 0;
    for row in 0..rows {
        let numbers = numbers_at(setup.table, row);
        let end = from + words(numbers) as usize;
        let held = Held {
            first: kept.firsts[row] as usize,
            count: kept.counts[row] as usize,
        };
        let judged = judge_row(&mut store[from..end], numbers, held, &arrival, &kept.truths);
        kept.truths[row] = u8::from(judged.truth);
        kept.counts[row] = judged.held.count as u32;
        kept.firsts[row] = judged.held.first as u32;
        from = end;
    }
    kept.seen = 1;
    kept.clock = time;
    kept.last = time;
}

// One row, in the words of its stretch.
fn judge_row(
    words: &mut [u64],
    numbers: Numbers,
    held: Held,
    arrival: &Arrival,
    truths: &[u8],
) -> Judgement
    requires { RowReady words.old numbers held arrival.now.time truths.now }
    ensures { RowJudged words.old numbers held arrival.now truths.now words.new result }
{
    match says(numbers) {
        Rule::Plain(said) => Judgement {
            truth: judge_plain(said, numbers, arrival, truths),
            held: Held { first: 0, count: 0 },
        },
        Rule::Stretch(columns) => {
            let keep = keeps(columns.keep, numbers, truths);
            let fed = truth_at(truths, feeder(columns.feed, numbers));
            let span = reached(arrival.time, numbers.limits());
            let updated = update(words, held, keep, fed == columns.when, arrival.time, span);
            Judgement {
                truth: updated.covered == columns.inside,
                held: updated.held,
            }
        }
    }
}

// Whether the spans of a stretch are kept: nothing is asked, or the row that x or y names is true.
fn keeps(keep: Keep, numbers: Numbers, truths: &[u8]) -> bool
    ensures { result ≡ kept_by true (truth_at truths.now) numbers keep }
{
    match keep {
        Keep::Unasked => true,
        Keep::WhileX => truth_at(truths, numbers.x),
        Keep::WhileY => truth_at(truths, numbers.y),
    }
}

// The row that feeds.
fn feeder(feed: Feed, numbers: Numbers) -> u32
    ensures { result ≡ feeder feed numbers }
{
    match feed {
        Feed::FromX => numbers.x,
        Feed::FromY => numbers.y,
    }
}

// The span that an event reaches.
fn reached(time: u64, limits: Interval) -> Span
    requires { time ≤ time_limit }
    ensures { span_in result ≡ reached_from time limits.a (end_of limits.b) }
{
    Span {
        first: time + u64::from(limits.a),
        last: last_reached(time, limits),
    }
}

// A row without a stretch, by what it says.
fn judge_plain(said: Plain, numbers: Numbers, arrival: &Arrival, truths: &[u8]) -> bool
    ensures { (spans : List Spans.Span) → result ≡ truth_by arrival.now truths.now spans numbers (plain said) }
{
    match said {
        Plain::Truth => true,
        Plain::Bit => bit_set(arrival.mask, numbers.x),
        Plain::Negation => !truth_at(truths, numbers.x),
        Plain::Both => truth_at(truths, numbers.x) && truth_at(truths, numbers.y),
        Plain::Either => truth_at(truths, numbers.x) || truth_at(truths, numbers.y),
        Plain::Previous => previous(arrival, numbers),
    }
}

// Previous x: the truth and the time found; false if no event was seen.
fn previous(arrival: &Arrival, numbers: Numbers) -> bool
    ensures { result ≡ previous_held arrival.now numbers }
{
    arrival.seen == 1
        && truth_at(&arrival.truths, numbers.x)
        && numbers.limits().holds(arrival.last, arrival.time)
}
