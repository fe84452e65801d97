// What an accepted call answers.

// An event's verdict, whose bit k is the truth of the k-th listed row; or that a heartbeat moved the clock.
#[derive(Clone, Copy, Debug, PartialEq, Eq)]
pub enum Accepted {
    Verdict(u16),
    ClockMoved,
}
