// Why the program stops before its end, and what it says of it.
ghost use Rattle.turns.specs.Refusals.{refusal_of};
ghost use Rattle.turns.specs.declared.errors.Error.TheVariants.{Lists, Memory, Output};
ghost use Rattle.std.specs.Prelude.{◌≡◌};

use guests::{Fault, Refusal};
use std::alloc::AllocError;
use std::{error, fmt, io};

#[derive(Debug, Drop)]
pub enum Error {
    // What the checks of the lists refuse.
    Lists(Fault),
    // The place of the first line that can't be read, or of the one that is missing.
    Line(usize),
    TooManyFiles,
    Memory,
    Input(io::Error),
    Output(io::Error),
}

impl Error {
    // What the text is refused by, where it is the text that is at fault.
    pub fn refusal(&self) -> Option<Refusal>
        ensures { result ≡ refusal_of self.now }
    {
        match self {
            Error::Lists(fault) => Some(Refusal::from(*fault)),
            Error::Line(place) => Some(Refusal {
                number: 4,
                place: *place as u64,
            }),
            _ => None,
        }
    }
}

impl fmt::Display for Error {
    fn fmt<W: fmt::Write>(&self, f: &mut fmt::Formatter<W>) -> fmt::Result {
        match self.refusal() {
            Some(Refusal { number, place }) => write!(f, "refused {number} at {place}: ")?,
            None => f.write_str("turns: ")?,
        }
        match self {
            Error::Lists(Fault::NoGuests) => f.write_str(
                "the shares line needs at least one guest",
            ),
            Error::Lists(Fault::TooManyGuests) => f.write_str("there can be at most 64 guests"),
            Error::Lists(Fault::ShareOutOfRange(_)) => f.write_str(
                "this guest's share must be 1 to 1000",
            ),
            Error::Lists(Fault::WantsLength(_)) => f.write_str(
                "a wants line needs one number for each guest",
            ),
            Error::Lists(Fault::WantAboveOne(_)) => f.write_str("this guest's want must be 0 or 1"),
            Error::Lists(Fault::OwedLength(_)) => f.write_str(
                "the owed line needs one number for each guest",
            ),
            Error::Lists(Fault::OwedOutOfRange(_)) => f.write_str(
                "what this guest is owed, or owes, must be less than all shares together times the number of guests",
            ),
            Error::Lists(Fault::OwedSumNotZero) => f.write_str("what is owed must add up to 0"),
            Error::Line(_) => f.write_str("this line, counted from 0, can't be read or is missing"),
            Error::TooManyFiles => {
                f.write_str("there is more than one file to read; turns --help says more")
            }
            Error::Memory => f.write_str("there is not enough memory"),
            Error::Input(e) => write!(f, "the text can't be read: {e}"),
            Error::Output(e) => write!(f, "the output can't be written: {e}"),
        }
    }
}

impl error::Error for Error {}

impl From<Fault> for Error {
    ghost from_gives = { λ fault r. r ≡ Lists fault };

    fn from(fault: Fault) -> Error {
        Error::Lists(fault)
    }
}

impl From<AllocError> for Error {
    ghost from_gives = { λ _ r. r ≡ Memory };

    fn from(_e: AllocError) -> Error {
        Error::Memory
    }
}

// What a `?` meets is a failure to write: reading is done in one place.
impl From<io::Error> for Error {
    ghost from_gives = { λ e r. r ≡ Output e };

    fn from(e: io::Error) -> Error {
        Error::Output(e)
    }
}
