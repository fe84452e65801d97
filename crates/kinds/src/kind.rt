// The kinds of rows (document 01; 7 and 8 by document 02, E1), and the numbers by which a table names them.

ghost use Rattle.std.specs.Prelude.{Some};
ghost use Rattle.kinds.specs.Kinds.{Names, unknown_text};

use std::error::Error;
use std::fmt;

#[derive(Clone, Copy, Debug, PartialEq, Eq)]
pub enum Kind {
    Truth,
    Bit,
    Negation,
    Both,
    Either,
    Previous,
    Since,
    Once,
    Always,
}

// A number that no kind has.
#[derive(Clone, Copy, Debug, PartialEq, Eq)]
pub struct UnknownKind(pub u32);

impl TryFrom<u32> for Kind {
    type Error = UnknownKind;

    ghost try_from_gives = { Names };

    fn try_from(number: u32) -> Result<Self, UnknownKind> {
        match number {
            0 => Ok(Kind::Truth),
            1 => Ok(Kind::Bit),
            2 => Ok(Kind::Negation),
            3 => Ok(Kind::Both),
            4 => Ok(Kind::Either),
            5 => Ok(Kind::Previous),
            6 => Ok(Kind::Since),
            7 => Ok(Kind::Once),
            8 => Ok(Kind::Always),
            _ => Err(UnknownKind(number)),
        }
    }
}

impl fmt::Display for UnknownKind {
    ghost output = { λ u. Some (unknown_text u) };

    fn fmt<W: fmt::Write>(&self, f: &mut fmt::Formatter<W>) -> fmt::Result {
        let number = self.0;
        write!(f, "no kind of row has number {number}")
    }
}

impl Error for UnknownKind {}
