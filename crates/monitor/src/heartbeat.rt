// A heartbeat (document 02, E2): every row's spans are clipped at its time, the clock moves to it, and nothing else of the record changes. It refuses
// nothing; whoever calls has checked the table, the store, the record and the time.

ghost use Rattle.std.specs.Prelude.{true, ℕ, ◌≡◌};
ghost use Rattle.meaning.specs.Heartbeat.{heartbeat?};
ghost use Rattle.soundness.specs.Setup.{setup_in};
ghost use Rattle.monitor.specs.Step.{event, moment_of};
ghost use Rattle.monitor.specs.Core.{Unrefused, Left};

use rules::numbers::numbers_at;
use rules::stretch::words;
use soundness::record::Record;
use soundness::setup::Setup;
use spans::stretch::{Held, clip};

// Every stretch is clipped, and the clock moves. The rows are gone through as in `judge_rows`, but a row is given other things and leaves others: one loop
// for both would have to take a turn as a closure over all of them.
pub(crate) fn clip_rows(setup: Setup, store: &mut [u64], kept: &mut Record, time: u64)
    requires { Unrefused (setup_in setup) store.old kept.old time }
    ensures { (mask : ℕ) → heartbeat? mask ≡ true → Left (moment_of (setup_in setup.entry) store.old kept.old (event time mask)) kept.new store.new }
{
    let rows = kept.rows as usize;
    let mut from = 0;
    for row in 0..rows {
        let end = from + words(numbers_at(setup.table, row)) as usize;
        let held = Held {
            first: kept.firsts[row] as usize,
            count: kept.counts[row] as usize,
        };
        let left = clip(&mut store[from..end], held, time);
        kept.counts[row] = left.count as u32;
        kept.firsts[row] = left.first as u32;
        from = end;
    }
    kept.clock = time;
}
