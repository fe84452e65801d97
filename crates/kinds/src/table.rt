// The one table of kinds (document 01; 7 and 8 by document 02, E1): specs/Kinds as code. A new kind is a line in both, a case of `Kind` with its number, and
// a case of `Plain` where it has no stretch.

ghost use Rattle.std.specs.Prelude.{◌≡◌};
ghost use Rattle.kinds.specs.Kinds.{kind_at, number_of, kind_line, fits};

use crate::kind::Kind;
use crate::plain::Plain;
use crate::rule::Rule;
use crate::stretch::{Feed, Keep, Stretch};
use Use::{Bit, Limit, Lower, Unused};
use times::mask::HEARTBEAT_BIT;

// What a number of a row is used as.
#[derive(Clone, Copy, Debug, PartialEq, Eq)]
pub enum Use {
    // Must be 0.
    Unused,
    // A bit of the mask, but for the heartbeat's.
    Bit,
    // A lower row.
    Lower,
    // A limit of [a,b].
    Limit,
}

impl Use {
    // Whether a number of the row may be used so.
    pub fn admits(self, row: u32, number: u32) -> bool
        ensures { result ≡ fits row self number }
    {
        match self {
            Use::Unused => number == 0,
            Use::Bit => number < HEARTBEAT_BIT,
            Use::Lower => number < row,
            Use::Limit => true,
        }
    }
}

// What x, y, a and b are used as, and what a row of the kind says.
#[derive(Clone, Copy)]
pub struct KindLine {
    pub x: Use,
    pub y: Use,
    pub a: Use,
    pub b: Use,
    pub rule: Rule,
}

// Spans kept while x is true, fed where y is, the row true inside one.
const SINCE: Stretch = Stretch {
    keep: Keep::WhileX,
    feed: Feed::FromY,
    when: true,
    inside: true,
};

// Spans kept whatever comes, fed where x is true, the row true inside one.
const ONCE: Stretch = Stretch {
    keep: Keep::Unasked,
    feed: Feed::FromX,
    when: true,
    inside: true,
};

// Spans kept whatever comes, fed where x is false, the row true outside every one.
const ALWAYS: Stretch = Stretch {
    keep: Keep::Unasked,
    feed: Feed::FromX,
    when: false,
    inside: false,
};

// Where a row of a kind has limits, both a and b are.
fn line(x: Use, y: Use, limits: Use, rule: Rule) -> KindLine
    ensures { result ≡ record { x = x; y = y; a = limits; b = limits; rule = rule } }
{
    KindLine {
        x,
        y,
        a: limits,
        b: limits,
        rule,
    }
}

impl Kind {
    // The line of a kind. The lines are arms, not an array: that would be put on the stack wherever a line is read, since the module has no data.
    #[tactic(auto, unfolding(crate::specs::Kinds::kind_at))]
    pub fn line(self) -> KindLine
        ensures { result ≡ kind_line (kind_at (number_of self)) }
    {
        match self {
            Kind::Truth => line(Unused, Unused, Unused, Rule::Plain(Plain::Truth)),
            Kind::Bit => line(Bit, Unused, Unused, Rule::Plain(Plain::Bit)),
            Kind::Negation => line(Lower, Unused, Unused, Rule::Plain(Plain::Negation)),
            Kind::Both => line(Lower, Lower, Unused, Rule::Plain(Plain::Both)),
            Kind::Either => line(Lower, Lower, Unused, Rule::Plain(Plain::Either)),
            Kind::Previous => line(Lower, Unused, Limit, Rule::Plain(Plain::Previous)),
            Kind::Since => line(Lower, Lower, Limit, Rule::Stretch(SINCE)),
            Kind::Once => line(Lower, Unused, Limit, Rule::Stretch(ONCE)),
            Kind::Always => line(Lower, Unused, Limit, Rule::Stretch(ALWAYS)),
        }
    }
}

// The line of a kind; where there is none, a line that uses nothing and says true.
#[tactic(auto, using(crate::proofs::KindsLaws::line_read))]
pub fn line_of(kind: u32) -> KindLine
    ensures { result ≡ kind_line (kind_at kind) }
{
    Kind::try_from(kind).unwrap_or(Kind::Truth).line()
}
