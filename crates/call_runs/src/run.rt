// A run over lent rows, of times or of counters, for Rattle.

ghost use Rattle.monitor.specs.Step as Step;
ghost use Rattle.soundness.specs.Setup.{setup_in};
ghost use Rattle.call_runs.specs.Run.{calls_of, RunLeaves};

use crate::stamp::Stamp;
use codes::code::code;
use soundness::record::Record;
use soundness::setup::Setup;

// An event for each time and mask, as long as there is room for its answer's code.
pub fn run_events(
    setup: Setup,
    store: &mut [u64],
    kept: &mut Record,
    times: &[u64],
    masks: &[u32],
    answers: &mut [u32],
)
    ensures { RunLeaves (setup_in setup.entry) kept.old store.old answers.old
        (calls_of Step.event times.now masks.now) kept.new store.new answers.new }
{
    run_calls(setup, store, kept, times, masks, answers);
}

// A frame for each counter and mask, as long as there is room for its answer's code.
pub fn run_frames(
    setup: Setup,
    store: &mut [u64],
    kept: &mut Record,
    counters: &[u16],
    masks: &[u32],
    answers: &mut [u32],
)
    ensures { RunLeaves (setup_in setup.entry) kept.old store.old answers.old
        (calls_of Step.frame counters.now masks.now) kept.new store.new answers.new }
{
    run_calls(setup, store, kept, counters, masks, answers);
}

// A call of each stamp and its mask, and its answer's code in the next place.
fn run_calls<S: Stamp>(
    setup: Setup,
    store: &mut [u64],
    kept: &mut Record,
    stamps: &[S],
    masks: &[u32],
    answers: &mut [u32],
)
    ensures { RunLeaves (setup_in setup.entry) kept.old store.old answers.old
        (calls_of S.call stamps.now masks.now) kept.new store.new answers.new }
{
    // By place: a loop over the rows zipped with the answers' `iter_mut` does not say what the answers that were written hold.
    let count = stamps.len().min(masks.len()).min(answers.len());
    for place in 0..count {
        let answer = stamps[place].judge(masks[place], setup, store, kept);
        answers[place] = code(answer);
    }
}
