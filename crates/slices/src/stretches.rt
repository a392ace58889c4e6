// Slices one after the other in which the same guests want to run.
ghost use Rattle.std.specs.Prelude.{◌≡◌, None, OnErr};
ghost use Rattle.bounds.specs.Promises.{Kept};
ghost use Rattle.guests.specs.Faults.{Checks, fault};
ghost use Rattle.slices.specs.Calls.{CarriesOn};
ghost use Rattle.slices.specs.Stretches.{Gives, StretchLaws};

use super::lists::Lists;
use guests::Fault;

// Gives as many slices as there are places in `runners`, the same guests wanting to run in each, and notes there who runs.
#[tactic(auto, using(bounds::proofs::Kept::kept))]
pub fn stretch(
    shares: &[u32],
    wants: &[u8],
    owed: &mut [i64],
    runners: &mut [Option<u64>],
) -> Result<(), Fault>
    ensures says { Checks (fault shares.now wants.now owed.old) (λ _. Gives shares.now wants.now owed.old owed.new runners.new) result }
    ensures refuses { OnErr result ((owed.new ≡ owed.old) × (runners.new ≡ runners.old)) }
    ensures keeps { StretchLaws shares.now wants.now owed.old owed.new }
    ensures carries { CarriesOn shares.now owed.old owed.new }
    ensures promises { Kept }
{
    let lists = Lists::checked(shares, wants, owed)?;
    lists.run(owed, runners);
    Ok(())
}

#[cfg(test)]
mod tests {
    use super::stretch;
    use guests::Fault;
    use std::test::Fail;

    #[test]
    fn no_slices_change_nothing(rt: HostRuntime) -> Result<(), Fail> {
        let mut owed = [1, -1];
        stretch(&[1, 1], &[1, 1], &mut owed, &mut [])?;
        assert_eq!(rt; owed, [1, -1]);
        Ok(())
    }

    #[test]
    fn one_guest_runs_whenever_it_wants(rt: HostRuntime) -> Result<(), Fail> {
        let mut owed = [0];
        let mut runners = [None; 2];
        stretch(&[7], &[1], &mut owed, &mut runners)?;
        assert_eq!(rt; runners, [Some(0); 2]);
        stretch(&[7], &[0], &mut owed, &mut runners)?;
        assert_eq!(rt; runners, [None; 2]);
        assert_eq!(rt; owed, [0]);
        Ok(())
    }

    #[test]
    fn as_many_guests_as_there_can_be_run_in_turn(rt: HostRuntime) -> Result<(), Fail> {
        let mut owed = [0; 64];
        let mut runners = [None; 64];
        stretch(&[1000; 64], &[1; 64], &mut owed, &mut runners)?;
        for (slice, runner) in runners.iter().enumerate() {
            assert_eq!(rt; *runner, Some(slice as u64));
        }
        assert_eq!(rt; owed, [0; 64]);
        Ok(())
    }

    #[test]
    fn what_is_refused_changes_nothing(rt: HostRuntime) {
        let mut owed = [5, -5];
        let mut runners = [Some(9)];
        assert_eq!(rt;
            stretch(&[1, 2], &[1, 2], &mut owed, &mut runners),
            Err(Fault::WantAboveOne(1))
        );
        assert_eq!(rt;
            stretch(&[1, 1], &[1, 1], &mut owed, &mut runners),
            Err(Fault::OwedOutOfRange(0))
        );
        assert_eq!(rt; owed, [5, -5]);
        assert_eq!(rt; runners, [Some(9)]);
    }
}
