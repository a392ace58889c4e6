// The lists of a slice once they are checked, and the slices that are given of them.
ghost use Rattle.std.specs.Prelude.{◌≡◌, ℕ, ◌+◌, ◌<◌, ◌≤◌, length, map, sum, pos, ◌+ℤ◌, ◌-ℤ◌, if◌then◌else◌, nat_eq, slice_index, slice_set, unsigned_abs, IfSome, IsSome, None};
ghost use Rattle.std.specs.List.{zip};
ghost use Rattle.bounds.specs.Laws.{SliceLaws};
ghost use Rattle.bounds.specs.Rule.{earned, runner};
ghost use Rattle.guests.specs.Faults.{Checks, fault};
ghost use Rattle.guests.specs.Guests.{Valid, host_in, owed_in, wants_bits};
ghost use Rattle.slices.specs.Answers.{Settles};
ghost use Rattle.slices.specs.Calls.{CarriesOn};
ghost use Rattle.slices.specs.Stretches.{Gives, StretchLaws};

use guests::{Fault, Runnable, check};
use std::cmp::Reverse;

// A guest that wants to run, with what it is owed once it has earned. The greatest is owed most, and of equals the lowest.
#[derive(Clone, Copy, PartialEq, Eq, PartialOrd, Ord)]
struct Candidate {
    claim: i64,
    guest: Reverse<usize>,
}

impl Candidate {
    ghost use Rattle.slices.specs.Steps.{better};

    fn new(guest: usize, share: u32, amount: i64) -> Candidate
        requires { (unsigned_abs amount ≤ 8192000) × (share ≤ 1000) }
        ensures guest { result.guest.0 ≡ guest }
        ensures claim { result.claim ≡ amount +ℤ pos share }
    {
        Candidate {
            claim: amount + i64::from(share),
            guest: Reverse(guest),
        }
    }

    // The better of this guest and the best of those below it.
    fn or_better(self, best: Option<Candidate>) -> Option<Candidate>
        requires { IfSome best (λ b. b.guest.0 < self.guest.0) }
        ensures { result ≡ Some (better best self) }
    {
        best.max(Some(self))
    }
}

// The runner of a slice, and what it pays: the shares of all who want.
#[derive(Clone, Copy)]
struct Turn {
    runner: usize,
    cost: u64,
    ghost cost_most: { cost ≤ 64000 },
}

impl Turn {
    // What a guest is owed afterwards: only the runner pays.
    fn settled(self, guest: usize, amount: i64, earned: u32) -> i64
        requires { (unsigned_abs amount ≤ 8192000) × (earned ≤ 1000) }
        ensures { result ≡ (amount +ℤ pos earned) -ℤ pos (if nat_eq guest self.runner then self.cost else 0) }
    {
        let paid = if guest == self.runner { self.cost } else { 0 };
        amount + i64::from(earned) - paid as i64
    }
}

// Who does not want earns nothing.
fn earned(share: u32, want: u8) -> u32
    ensures { result ≡ (if nat_eq want 1 then share else 0) }
{
    if want == 1 { share } else { 0 }
}

// Notes who runs in a slice, in its place.
fn put(runners: &mut [Option<u64>], slice: usize, runner: Option<u64>)
    requires { slice < length runners.old }
    ensures { runners.new ≡ slice_set runners.old slice runner }
{
    runners[slice] = runner;
}

// Lent shares and wants that are not refused, and who wants as bits.
#[derive(Clone, Copy)]
pub(super) struct Lists<'l> {
    shares: &'l [u32],
    wants: &'l [u8],
    runnable: Runnable,
    ghost valid: { Valid (host_in shares.now) },
    ghost wants_long: { length wants.now ≡ length shares.now },
    ghost bits: { runnable.bits ≡ wants_bits wants.now },
}

impl<'l> Lists<'l> {
    ghost use Rattle.slices.specs.Steps.{Accepted, Decides, InReach, host_of, wants_of};

    // The checks. Whatever they answer, a call that changes nothing carries on what it was lent.
    #[tactic(auto, using(crate::proofs::Carrying::unchanged_carries_on))]
    pub(super) fn checked(
        shares: &'l [u32],
        wants: &'l [u8],
        owed: &[i64],
    ) -> Result<Lists<'l>, Fault>
        ensures checks { Checks (fault shares.now wants.now owed.now) (λ l. (l.shares.now ≡ shares.now) × (l.wants.now ≡ wants.now) × Accepted l owed.now) result }
        ensures carries { CarriesOn shares.now owed.now owed.now }
    {
        let runnable = check(shares, wants, owed)?;
        Ok(Lists {
            shares,
            wants,
            runnable,
        })
    }

    // What a guest earns in a slice.
    fn earned_by(&self, guest: usize) -> u32
        requires { guest < length self.now.shares.now }
        ensures { result ≡ earned (host_of self.now) (wants_of self.now) guest }
    {
        earned(self.shares[guest], self.wants[guest])
    }

    // What all earn together: the shares of those who want.
    fn wanting(&self) -> u64
        ensures { result ≡ sum (map (λ p. if nat_eq p.1 1 then p.0 else 0) (zip self.now.shares.now self.now.wants.now)) }
    {
        self.shares
            .iter()
            .zip(self.wants)
            .map(|(share, want)| u64::from(earned(*share, *want)))
            .sum()
    }

    // Who runs, where somebody wants to.
    fn runner(&self, owed: &[i64]) -> usize
        requires reach { InReach self.now owed.now }
        requires some { IsSome (runner (host_of self.now) (wants_of self.now) (owed_in owed.now)) }
        ensures { runner (host_of self.now) (wants_of self.now) (owed_in owed.now) ≡ Some result }
    {
        let mut best = None;
        let side_by_side = self.shares.iter().zip(self.wants).zip(owed);
        for (guest, ((share, want), amount)) in side_by_side.enumerate() {
            if *want == 1 {
                best = Candidate::new(guest, *share, *amount).or_better(best);
            }
        }
        best.unwrap().guest.0
    }

    // What each guest is owed after the slice of a turn.
    #[tactic(auto, using(crate::proofs::Amounts::earned_most, crate::proofs::Amounts::owed_read))]
    fn settle(&self, turn: Turn, owed: &mut [i64])
        requires reach { InReach self.now owed.old }
        requires turn { Decides self.now (owed_in owed.old) turn }
        ensures { Settles self.now.shares.now self.now.wants.now owed.old owed.new }
    {
        for (guest, amount) in owed.iter_mut().enumerate() {
            *amount = turn.settled(guest, *amount, self.earned_by(guest));
        }
    }

    // A slice: who runs, if anybody wants to. It is inlined, since a call for each slice of a stretch would cost more than a
    // slice that nobody wants.
    #[inline(always)]
    pub(super) fn give(&self, owed: &mut [i64]) -> Option<u64>
        requires { InReach self.now owed.old }
        ensures runs { result ≡ runner (host_of self.now) (wants_of self.now) (owed_in owed.old) }
        ensures settles { Settles self.now.shares.now self.now.wants.now owed.old owed.new }
        ensures keeps { SliceLaws (host_of self.now) (wants_of self.now) (owed_in owed.old) (owed_in owed.new) result }
        ensures carries { CarriesOn self.now.shares.now owed.old owed.new }
    {
        if self.runnable.count() == 0 {
            return None;
        }
        let turn = Turn {
            runner: self.runner(owed),
            cost: self.wanting(),
        };
        self.settle(turn, owed);
        Some(turn.runner as u64)
    }

    // A slice for each place of `runners`, of amounts that are not refused.
    pub(super) fn run(&self, owed: &mut [i64], runners: &mut [Option<u64>])
        requires accepted { Accepted self.now owed.old }
        requires carries { CarriesOn self.now.shares.now owed.old owed.old }
        ensures gives { Gives self.now.shares.now self.now.wants.now owed.old owed.new runners.new }
        ensures keeps { StretchLaws self.now.shares.now self.now.wants.now owed.old owed.new }
        ensures carries { CarriesOn self.now.shares.now owed.old owed.new }
    {
        for slice in 0..runners.len() {
            let runner = self.give(owed);
            put(runners, slice, runner);
        }
    }
}
