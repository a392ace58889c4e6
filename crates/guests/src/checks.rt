// The checks of the three lists of a slice, in their order.
ghost use Rattle.guests.specs.Faults.{Checks, fault};
ghost use Rattle.guests.specs.Guests.{wants_bits};
ghost use Rattle.std.specs.Prelude.{◌≡◌};

use super::faults::Fault;
use super::totals::Totals;
use super::wanting::Runnable;

pub fn check(shares: &[u32], wants: &[u8], owed: &[i64]) -> Result<Runnable, Fault>
    ensures { Checks (fault shares.now wants.now owed.now) (λ w. w.bits ≡ wants_bits wants.now) result }
{
    let totals = Totals::of(shares)?;
    let runnable = totals.runnable(wants)?;
    totals.check_owed(owed)?;
    Ok(runnable)
}

#[cfg(test)]
mod tests {
    use super::check;
    use crate::faults::Refusal;

    fn refusal(shares: &[u32], wants: &[u8], owed: &[i64]) -> Option<Refusal> {
        check(shares, wants, owed).err().map(Refusal::from)
    }

    fn by(number: u64, place: u64) -> Option<Refusal> {
        Some(Refusal { number, place })
    }

    #[test]
    fn shares_at_their_edges(rt: HostRuntime) {
        assert_eq!(rt; refusal(&[], &[2], &[1]), by(1, 0));
        assert_eq!(rt; refusal(&[1; 65], &[1; 65], &[0; 65]), by(1, 64));
        assert_eq!(rt; refusal(&[1; 64], &[1; 64], &[0; 64]), None);
        assert_eq!(rt; refusal(&[1, 0], &[2, 2], &[1, 1]), by(1, 1));
        assert_eq!(rt; refusal(&[1001, 0], &[0, 0], &[0, 0]), by(1, 0));
        assert_eq!(rt; refusal(&[1, 1000], &[0, 1], &[0, 0]), None);
    }

    #[test]
    fn wants_at_their_edges(rt: HostRuntime) {
        assert_eq!(rt; refusal(&[1, 1], &[1], &[9, 9]), by(2, 1));
        assert_eq!(rt; refusal(&[1, 1], &[1, 1, 1], &[0, 0]), by(2, 2));
        assert_eq!(rt; refusal(&[1, 1], &[0, 2], &[0, 0]), by(2, 1));
        assert_eq!(rt; refusal(&[1, 1], &[255, 1], &[0, 0]), by(2, 0));
    }

    // Shares 1 and 2: nobody is owed, or owes, 6.
    #[test]
    fn owed_at_its_edges(rt: HostRuntime) {
        assert_eq!(rt; refusal(&[1, 2], &[1, 1], &[0]), by(3, 1));
        assert_eq!(rt; refusal(&[1, 2], &[1, 1], &[0, 0, 0]), by(3, 2));
        assert_eq!(rt; refusal(&[1, 2], &[1, 1], &[6, -6]), by(3, 0));
        assert_eq!(rt; refusal(&[1, 2], &[1, 1], &[5, -5]), None);
        assert_eq!(rt; refusal(&[1, 2], &[1, 1], &[5, -6]), by(3, 1));
        assert_eq!(rt; refusal(&[1, 2], &[1, 1], &[1, 0]), by(3, 64));
        assert_eq!(rt; refusal(&[1, 2], &[1, 1], &[0, i64::MIN]), by(3, 1));
        assert_eq!(rt; refusal(&[1, 2], &[1, 1], &[i64::MAX, i64::MIN]), by(3, 0));
    }
}
