// Why a call is refused.
ghost use Rattle.std.specs.Prelude.{◌≡◌};
ghost use Rattle.faults.specs.Refusal.{number_of};

// What is wrong with what a call was given; `as u8` is the number that the rules give it.
#[derive(Clone, Copy, PartialEq, Eq)]
pub enum Refusal {
    Kind = 1,
    Level = 2,
    Length = 3,
    Outside = 4,
    Room = 5,
    Header = 6,
    Version = 7,
    Size = 8,
    Unused = 9,
    Order = 10,
    Full = 11,
    Absent = 12,
    Form = 13,
    Fraction = 14,
    Unlisted = 15,
    Percentage = 16,
    Straight = 17,
    Signed = 18,
    Sign = 19,
    NotValid = 20,
    Collapsed = 21,
    NoneValid = 22,
    OffGrid = 23,
    Undecided = 24,
}

impl Refusal {
    // Its number.
    pub fn number(self) -> u8
        ensures { result ≡ number_of self }
    {
        self as u8
    }
}
