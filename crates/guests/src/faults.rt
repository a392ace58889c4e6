// What is wrong with lists that are refused, and the number and place that it is refused by.
ghost use Rattle.guests.specs.Numbers.{number_of, place_of};
ghost use Rattle.std.specs.Prelude.{◌≡◌};

use super::plans::Plan;

// The guest or the length that a fault holds is its place.
#[derive(Clone, Copy, PartialEq, Eq, Debug)]
pub enum Fault {
    NoGuests,
    TooManyGuests,
    ShareOutOfRange(usize),
    WantsLength(usize),
    WantAboveOne(usize),
    OwedLength(usize),
    OwedOutOfRange(usize),
    OwedSumNotZero,
}

// The numbers are those of the text format.
#[derive(Clone, Copy, PartialEq, Eq, Debug)]
pub struct Refusal {
    pub number: u64,
    pub place: u64,
}

impl From<Fault> for Refusal {
    ghost from_gives = { λ fault r. (r.number ≡ number_of fault) × (r.place ≡ place_of fault) };

    fn from(fault: Fault) -> Refusal {
        let (number, place) = match fault {
            Fault::NoGuests => (1, 0),
            Fault::TooManyGuests => (1, Plan::MAX_GUESTS),
            Fault::ShareOutOfRange(guest) => (1, guest),
            Fault::WantsLength(shorter) => (2, shorter),
            Fault::WantAboveOne(guest) => (2, guest),
            Fault::OwedLength(shorter) => (3, shorter),
            Fault::OwedOutOfRange(guest) => (3, guest),
            Fault::OwedSumNotZero => (3, Plan::MAX_GUESTS),
        };
        Refusal {
            number,
            place: place as u64,
        }
    }
}
