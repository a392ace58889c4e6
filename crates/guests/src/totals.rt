// How many guests a host has and what their shares come to, once the shares are taken; and the checks that need no more.
ghost use Rattle.std.specs.Prelude.{◌≡◌, ◌≤◌, length};
ghost use Rattle.guests.specs.Faults.{Checks, share_ok, shares_fault, wants_fault, owed_fault};
ghost use Rattle.guests.specs.Guests.{host_in, total, wants_bits};

use super::faults::Fault;
use super::plans::Plan;
use super::wanting::Runnable;

#[derive(Clone, Copy)]
pub struct Totals {
    guests: usize,
    share: u64,
    ghost few: { guests ≤ 64 },
    ghost share_most: { share ≤ 64000 },
}

fn share_ok(share: u32) -> bool
    ensures { result ≡ share_ok share }
{
    (1..=Plan::MAX_SHARE).contains(&share)
}

impl Totals {
    // Of shares that are taken.
    pub fn of(shares: &[u32]) -> Result<Totals, Fault>
        ensures { Checks (shares_fault shares.now) (λ t. (t.guests ≡ length shares.now) × (t.share ≡ total (host_in shares.now))) result }
    {
        if shares.is_empty() {
            return Err(Fault::NoGuests);
        }
        if shares.len() > Plan::MAX_GUESTS {
            return Err(Fault::TooManyGuests);
        }
        let mut total = 0;
        for (guest, share) in shares.iter().enumerate() {
            if !share_ok(*share) {
                return Err(Fault::ShareOutOfRange(guest));
            }
            total += u64::from(*share);
        }
        Ok(Totals {
            guests: shares.len(),
            share: total,
        })
    }

    // Who wants to run, where there is a want for each guest.
    pub fn runnable(self, wants: &[u8]) -> Result<Runnable, Fault>
        ensures { Checks (wants_fault self.guests wants.now) (λ w. w.bits ≡ wants_bits wants.now) result }
    {
        if wants.len() != self.guests {
            return Err(Fault::WantsLength(wants.len().min(self.guests)));
        }
        let mut bits = 0;
        for (guest, want) in wants.iter().enumerate() {
            if *want > 1 {
                return Err(Fault::WantAboveOne(guest));
            }
            bits |= u64::from(*want) << guest;
        }
        Ok(Runnable { bits })
    }

    // That what is owed can have come of slices: within the limit for each guest, and nothing all together.
    pub fn check_owed(self, owed: &[i64]) -> Result<(), Fault>
        ensures { Checks (owed_fault self.guests self.share owed.now) (λ _. Unit {0}) result }
    {
        if owed.len() != self.guests {
            return Err(Fault::OwedLength(owed.len().min(self.guests)));
        }
        let limit = self.share * self.guests as u64;
        let mut sum = 0;
        for (guest, amount) in owed.iter().enumerate() {
            if amount.unsigned_abs() >= limit {
                return Err(Fault::OwedOutOfRange(guest));
            }
            sum += *amount;
        }
        if sum != 0 {
            return Err(Fault::OwedSumNotZero);
        }
        Ok(())
    }
}
