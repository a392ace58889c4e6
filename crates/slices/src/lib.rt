// Slices of a host's time: one, or many one after the other.
//
// Each guest that wants to run is owed its share more. Of those the one that is then owed most runs, of equals the
// lowest, and pays the shares of all who want. A guest that does not want neither earns nor pays: it is owed afterwards
// what it was owed before. What is earned is what is paid, so what is owed comes to nothing, all together, as before.
// Lists past a limit are refused by a number, and nothing of them is changed.
//
// Whoever begins with nothing owed and calls for slices since is never refused for what is owed, and nobody is ever owed,
// or owes, more than half of the bound, whatever is wanted in each slice.
#![tactic(auto)]

ghost use Rattle.std.specs.Prelude.{◌≡◌};
ghost use Rattle.bounds.specs.Examples.{TurnsOfThree};
ghost use Rattle.guests.specs.Faults.{fault};
ghost use Rattle.slices.specs.Answers.{SliceKeeps, SliceSays, answer};
ghost use Rattle.slices.specs.Calls.{CarriesOn};

mod lists;
mod stretches;

use guests::Refusal;
use lists::Lists;
pub use stretches::stretch;

// What a slice answers.
#[derive(Clone, Copy, PartialEq, Eq, Debug)]
pub enum Done {
    // Who runs.
    Works(u64),
    // Nobody wants to run.
    Idle,
    // The number that the lists are refused by.
    Refused(u64),
}

impl From<Option<u64>> for Done {
    ghost from_gives = { λ runner done. done ≡ answer runner };

    fn from(runner: Option<u64>) -> Done {
        runner.map_or(Done::Idle, Done::Works)
    }
}

pub fn slice(shares: &[u32], wants: &[u8], owed: &mut [i64]) -> Done
    ensures says { SliceSays (fault shares.now wants.now owed.old) shares.now wants.now owed.old owed.new result }
    ensures keeps { SliceKeeps shares.now wants.now owed.old owed.new result }
    ensures carries { CarriesOn shares.now owed.old owed.new }
{
    match Lists::checked(shares, wants, owed) {
        Ok(lists) => Done::from(lists.give(owed)),
        Err(fault) => Done::Refused(Refusal::from(fault).number),
    }
}

// Who runs in twelve slices on a host with the shares 1, 2 and 3 where all want all the while: an example to compare with.
#[tactic(auto, using(bounds::proofs::Three::turns_of_three_run))]
pub fn turns_of_three() -> [u8; 12]
    ensures { TurnsOfThree result }
{
    [2, 1, 0, 2, 1, 2, 2, 1, 0, 2, 1, 2]
}

#[cfg(test)]
mod tests {
    use super::*;
    use std::test::Fail;

    #[test]
    fn all_want_twelve_times(rt: HostRuntime) -> Result<(), Fail> {
        let mut owed = [0; 3];
        for guest in turns_of_three() {
            assert_eq!(rt;
                slice(&[1, 2, 3], &[1, 1, 1], &mut owed),
                Done::Works(u64::from(guest))
            );
        }
        assert_eq!(rt; owed, [0, 0, 0]);
        Ok(())
    }

    // Guest 2 sleeps in the third and the fourth slice.
    #[test]
    fn who_sleeps_is_owed_what_it_was(rt: HostRuntime) {
        let mut owed = [0; 3];
        assert_eq!(rt; slice(&[1, 2, 3], &[1, 1, 1], &mut owed), Done::Works(2));
        assert_eq!(rt; slice(&[1, 2, 3], &[1, 1, 1], &mut owed), Done::Works(1));
        assert_eq!(rt; owed, [2, -2, 0]);
        assert_eq!(rt; slice(&[1, 2, 3], &[1, 1, 0], &mut owed), Done::Works(0));
        assert_eq!(rt; slice(&[1, 2, 3], &[1, 1, 0], &mut owed), Done::Works(1));
        assert_eq!(rt; owed, [1, -1, 0]);
        assert_eq!(rt; slice(&[1, 2, 3], &[1, 1, 1], &mut owed), Done::Works(2));
        assert_eq!(rt; slice(&[1, 2, 3], &[0, 0, 0], &mut owed), Done::Idle);
        assert_eq!(rt; slice(&[1, 2, 3], &[1, 1, 1], &mut owed), Done::Works(0));
        assert_eq!(rt; slice(&[1, 2, 3], &[1, 1, 1], &mut owed), Done::Works(1));
        assert_eq!(rt; owed, [-2, -1, 3]);
    }

    #[test]
    fn a_refusal_changes_nothing(rt: HostRuntime) {
        let mut owed = [5, -5];
        assert_eq!(rt; slice(&[1, 1001], &[1, 1], &mut owed), Done::Refused(1));
        assert_eq!(rt; slice(&[1, 2], &[1, 2], &mut owed), Done::Refused(2));
        assert_eq!(rt; slice(&[1, 1], &[1, 1], &mut owed), Done::Refused(3));
        assert_eq!(rt; owed, [5, -5]);
    }
}
