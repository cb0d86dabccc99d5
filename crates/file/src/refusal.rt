// Why a file or a call is refused. The first reason that is met is the one given.
ghost use Rattle.std.specs.Prelude.{◌≡◌, Some};
ghost use Rattle.std.specs.Fmt.{decimal};
ghost use Rattle.file.specs.Number.{number};

use std::error::Error;
use std::fmt;

#[derive(Clone, Copy, Debug, PartialEq, Eq, Hash)]
pub enum Refusal {
    // a lent row has fewer than 512 places, or the lent output is shorter than the accepted file
    ShortRow,
    // the file ends inside a record or before the last announced one
    CutShort,
    // the length or kind is not the one due at this place
    OtherRecord,
    // states, moves or objective outside their ranges
    BadHead,
    // turn not 1 or 2; marks above 3; block number above the state's own, or naming a state whose own block is another
    BadState,
    // from or to not a state, or the pair not above the one before
    BadMove,
    // bytes after the last announced move
    BytesAtEnd,
    // no initial state
    NoStart,
    // a state without a move
    NoMove,
    // a block has initial and other members
    MixedStarts,
    // a block has target and other members
    MixedTarget,
}

impl Refusal {
    // The number that stands for the refusal, 1 to 11.
    pub fn number(self) -> u8
        ensures { result ≡ number self }
    {
        match self {
            Refusal::ShortRow => 1,
            Refusal::CutShort => 2,
            Refusal::OtherRecord => 3,
            Refusal::BadHead => 4,
            Refusal::BadState => 5,
            Refusal::BadMove => 6,
            Refusal::BytesAtEnd => 7,
            Refusal::NoStart => 8,
            Refusal::NoMove => 9,
            Refusal::MixedStarts => 10,
            Refusal::MixedTarget => 11,
        }
    }
}

impl fmt::Display for Refusal {
    ghost output = { λ refusal. Some (decimal (number refusal)) };

    fn fmt<W: fmt::Write>(&self, f: &mut fmt::Formatter<W>) -> fmt::Result {
        write!(f, "{}", self.number())
    }
}

impl Error for Refusal {}
