// The kinds of element, by the number of nodes that a call is given.
ghost use Rattle.std.specs.Prelude.{◌≡◌};
ghost use Rattle.element.specs.Kinds.{greatest_level};
ghost use Rattle.faults.specs.Kinds.{nodes_of, meant, Reads};

use crate::refusal::Refusal;

// A kind; `as u8` is its number of nodes.
#[derive(Clone, Copy, PartialEq, Eq)]
pub enum Kind {
    Six = 6,
    Eight = 8,
    Nine = 9,
    Ten = 10,
}

impl TryFrom<u8> for Kind {
    type Error = Refusal;

    ghost try_from_gives = { Reads };

    fn try_from(nodes: u8) -> Result<Kind, Refusal> {
        match nodes {
            6 => Ok(Kind::Six),
            8 => Ok(Kind::Eight),
            9 => Ok(Kind::Nine),
            10 => Ok(Kind::Ten),
            _ => Err(Refusal::Kind),
        }
    }
}

impl Kind {
    // How many nodes it has.
    pub fn nodes(self) -> usize
        ensures { result ≡ nodes_of self }
    {
        self as usize
    }

    // The greatest level of the kind.
    pub fn greatest_level(self) -> u8
        ensures { result ≡ greatest_level (meant self) }
    {
        match self {
            Kind::Six => 10,
            Kind::Ten => 5,
            Kind::Eight | Kind::Nine => 4,
        }
    }
}
