// What stands beside a mask in a run: an event's time, or a frame's counter.

ghost use Rattle.std.specs.Prelude.{ℕ};
ghost use Rattle.soundness.specs.Setup.{setup_in};
ghost use Rattle.monitor.specs.Step as Step;
ghost use Rattle.monitor.specs.Step.{StepGives};

use monitor::answer::Accepted;
use monitor::step;
use refusals::refusal::Refusal;
use soundness::record::Record;
use soundness::setup::Setup;

pub(crate) trait Stamp: Copy {
    // The call that it makes with a mask.
    ghost call: { Self → ℕ → Step.Call };

    fn judge(
        self,
        mask: u32,
        setup: Setup,
        store: &mut [u64],
        kept: &mut Record,
    ) -> Result<Accepted, Refusal>
        ensures { StepGives (setup_in setup.entry) store.old kept.old (call self mask) result kept.new store.new };
}

impl Stamp for u64 {
    ghost call = { Step.event };

    fn judge(
        self,
        mask: u32,
        setup: Setup,
        store: &mut [u64],
        kept: &mut Record,
    ) -> Result<Accepted, Refusal> {
        step::event(setup, store, kept, self, mask)
    }
}

impl Stamp for u16 {
    ghost call = { Step.frame };

    fn judge(
        self,
        mask: u32,
        setup: Setup,
        store: &mut [u64],
        kept: &mut Record,
    ) -> Result<Accepted, Refusal> {
        step::frame(setup, store, kept, self, mask)
    }
}
