// What the monitor keeps of the events so far, beside the store.

ghost use Rattle.std.specs.Prelude.{◌≡◌};
ghost use Rattle.soundness.specs.Record.{nothing_seen};

use rules::limits::ROW_LIMIT;

// As C has it, the arrays side by side and a time beside whether it was seen too: a truth is a byte, 1 for true and 0 for false. C memory may hold any byte there;
// one over 1 is not sound.
#[repr(C)]
#[derive(Clone, Copy)]
pub struct Record {
    // Whether an event was seen, a heartbeat not counted.
    pub seen: u8,
    // The time of the last accepted call, a heartbeat's too; and that of the last event.
    pub clock: u64,
    pub last: u64,
    // The table's row count.
    pub rows: u32,
    // Each row's truth at the last event, how many spans its stretch holds, and the place of the first of them.
    pub truths: [u8; ROW_LIMIT],
    pub counts: [u32; ROW_LIMIT],
    pub firsts: [u32; ROW_LIMIT],
}

// A record with nothing seen, of so many rows; all zero where there are none.
#[tactic(auto, unfolding(crate::specs::Record::nothing_seen))]
pub fn nothing_seen(rows: u32) -> Record
    ensures { result ≡ nothing_seen rows }
{
    Record {
        seen: 0,
        clock: 0,
        last: 0,
        rows,
        truths: [0; ROW_LIMIT],
        counts: [0; ROW_LIMIT],
        firsts: [0; ROW_LIMIT],
    }
}
