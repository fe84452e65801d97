// The bits of an event's mask. The highest is the heartbeat's (document 02, E2), so no rule may name it.

ghost use Rattle.std.specs.Prelude.{◌≡◌};
ghost use Rattle.meaning.specs.Computed.{bit_set?};
ghost use Rattle.meaning.specs.Heartbeat.{heartbeat?};

// "a frame or event with bit 31 set only moves the clock".
pub const HEARTBEAT_BIT: u32 = 31;

// Whether bit x of the mask is set; past the last there is none.
#[tactic(auto, using(crate::proofs::MaskLaws::bit_past))]
pub fn bit_set(mask: u32, x: u32) -> bool
    ensures { result ≡ bit_set? x mask }
{
    x < u32::BITS && (mask >> x) % 2 == 1
}

// Whether the mask is a heartbeat's, whatever its other bits.
pub fn is_heartbeat(mask: u32) -> bool
    ensures { result ≡ heartbeat? mask }
{
    bit_set(mask, HEARTBEAT_BIT)
}
