// The same step with the record handed in and back, for a caller that keeps the one that it found: the record is copied, and the call is made on the copy.

ghost use Rattle.soundness.specs.Setup.{setup_in};
ghost use Rattle.monitor.specs.Step.{event, frame, StepGives};

use crate::answer::Accepted;
use crate::step;
use refusals::refusal::Refusal;
use soundness::record::Record;
use soundness::setup::Setup;

// The answer with the record beside it.
#[derive(Clone, Copy)]
pub struct Judged {
    pub answer: Result<Accepted, Refusal>,
    pub record: Record,
}

// What `step::event` answers, and the record that it leaves.
pub fn event(setup: Setup, store: &mut [u64], found: Record, time: u64, mask: u32) -> Judged
    ensures { StepGives (setup_in setup.entry) store.old found (event time mask) result.answer result.record store.new }
{
    let mut record = found;
    let answer = step::event(setup, store, &mut record, time, mask);
    Judged { answer, record }
}

// What `step::frame` answers, and the record that it leaves.
pub fn frame(setup: Setup, store: &mut [u64], found: Record, counter: u16, mask: u32) -> Judged
    ensures { StepGives (setup_in setup.entry) store.old found (frame counter mask) result.answer result.record store.new }
{
    let mut record = found;
    let answer = step::frame(setup, store, &mut record, counter, mask);
    Judged { answer, record }
}
