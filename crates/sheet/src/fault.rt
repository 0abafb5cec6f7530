ghost use Rattle.std.specs.Prelude.{◌≡◌};

use machine::fault::Fault;

/// Why a row is refused, asked in this order; or the whole sheet, which is asked before its rows.
#[derive(Clone, Copy, Debug, PartialEq, Eq)]
pub enum SheetFault {
    /// 1: a byte is not from 33 to 126
    Unprintable,
    /// 2: a letter is not known to this program
    UnknownLetter,
    /// 3: the count of fields is not right
    WrongCount,
    /// 4: a number is not 1 to 9 decimal digits
    BadNumber,
    /// 5: the floor refuses
    Floor(Fault),
    /// 6: the sheet has too many bytes; no row gets it
    TooLong,
}

impl SheetFault {
    ghost use Rattle.sheet.specs.Faults.{number, at_floor, inside};

    /// The number of the refusal in a line.
    // A match, since `as` takes no enum whose variants hold values.
    pub fn number(self) -> u32
        ensures { result ≡ number self }
    {
        match self {
            SheetFault::Unprintable => 1,
            SheetFault::UnknownLetter => 2,
            SheetFault::WrongCount => 3,
            SheetFault::BadNumber => 4,
            SheetFault::Floor(_) => 5,
            SheetFault::TooLong => 6,
        }
    }

    /// The number of the floor's refusal, or 0 where the floor does not refuse.
    // 0 and no Option, since a line has a number in each place.
    pub fn at_floor(self) -> u32
        ensures { result ≡ at_floor self }
    {
        match self {
            SheetFault::Floor(fault) => fault.number(),
            _ => 0,
        }
    }

    /// The number that the floor's refusal carries inside, or 0 where there is none.
    pub fn inside(self) -> u32
        ensures { result ≡ inside self }
    {
        match self {
            SheetFault::Floor(fault) => fault.inside(),
            _ => 0,
        }
    }
}

impl From<Fault> for SheetFault {
    ghost use Rattle.sheet.specs.Faults.{of_floor};

    ghost from_gives = { λ f r. r ≡ of_floor f };

    // By hand, since the clause says what `?` makes of a fault.
    fn from(fault: Fault) -> SheetFault {
        SheetFault::Floor(fault)
    }
}
