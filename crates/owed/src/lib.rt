// Who is owed anything, handed back as a part of a lent list of guests, and the order that such a list is in.
#![tactic(auto)]

ghost use Rattle.std.specs.Prelude.{◌≡◌, ◌≤◌, true, length, take, nat_lt};
ghost use Rattle.guests.specs.Guests.{owed_in};
ghost use Rattle.owed.specs.Orders.{Ordered, before, in_order, ranks_all};
ghost use Rattle.owed.specs.Parts.{PartLaws, PartSays, is_owed};
ghost use Rattle.std.specs.List.{list_all, range_with_len};
ghost use Rattle.std.specs.List.Sorted.{IsPermutation};

use guests::Plan;
use std::cmp::Reverse;

// Why guests can't be put in order in a list.
#[derive(Clone, Copy, PartialEq, Eq, Debug)]
pub enum OrderFault {
    TooManyGuests,
    // The list has not one place for each guest.
    OtherLength,
}

// What a guest is owed: nothing where the list has no such guest.
fn owed_to(owed: &[i64], guest: u8) -> i64
    ensures { result ≡ owed_in owed.now guest }
{
    owed.get(usize::from(guest)).copied().unwrap_or(0)
}

fn is_owed(owed: &[i64], guest: u8) -> bool
    ensures { result ≡ is_owed owed.now guest }
{
    owed_to(owed, guest) > 0
}

// Of two guests the one with the lesser rank comes first: who is owed more, and of equals the lower.
fn rank(owed: &[i64], guest: u8) -> (Reverse<i64>, u8)
    ensures owed { result.0.0 ≡ owed_in owed.now guest }
    ensures guest { result.1 ≡ guest }
{
    (Reverse(owed_to(owed, guest)), guest)
}

fn comes_before(owed: &[i64], a: u8, b: u8) -> bool
    ensures { result ≡ before (owed_in owed.now) a b }
{
    rank(owed, a) < rank(owed, b)
}

// Whether each guest comes before the next.
fn in_order(owed: &[i64], by: &[u8]) -> bool
    ensures { result ≡ in_order (owed_in owed.now) by.now }
{
    by.is_sorted_by(|a, b| comes_before(owed, *a, *b))
}

// Whether everybody in the list is one of so many guests.
fn only_guests(guests: usize, by: &[u8]) -> bool
    ensures { result ≡ list_all (λ g. nat_lt g guests) by.now }
{
    by.iter().all(|guest| usize::from(*guest) < guests)
}

// Whether the list has all guests in order. Where it has one place for each guest and nobody else, and each comes before
// the next, no guest is there twice: so each is there.
#[tactic(auto, using(crate::proofs::Ranks::ranks_all_by_tests))]
fn ranks_all(owed: &[i64], by: &[u8]) -> bool
    ensures { result ≡ ranks_all owed.now by.now }
{
    owed.len() <= Plan::MAX_GUESTS
        && by.len() == owed.len()
        && only_guests(owed.len(), by)
        && in_order(owed, by)
}

// How many places of a list in order come before the first whose guest is owed nothing.
fn count_owed(owed: &[i64], by: &[u8]) -> usize
    requires { ranks_all owed.now by.now ≡ true }
    ensures within { result ≤ length by.now }
    ensures says { PartSays owed.now by.now (take result by.now) }
    ensures keeps { PartLaws owed.now by.now (take result by.now) }
{
    by.partition_point(|guest| is_owed(owed, *guest))
}

// The part of `by` with the guests that are owed more than 0, where `by` has all guests in the order of what they are
// owed, the most first, of equals the lowest. Of any other list, and where nobody is owed anything, it is a part of none.
pub fn who_is_owed<'a>(owed: &[i64], by: &'a [u8]) -> &'a [u8]
    ensures says { PartSays owed.now by.now result.now }
    ensures keeps { PartLaws owed.now by.now result.now }
{
    if !ranks_all(owed, by) {
        return &by[..0];
    }
    &by[..count_owed(owed, by)]
}

// Writes the guests' numbers into the list, from 0.
fn write_guests(by: &mut [u8])
    requires { length by.old ≤ 64 }
    ensures { by.new ≡ range_with_len 0 (length by.old) }
{
    for (guest, place) in by.iter_mut().enumerate() {
        *place = guest as u8;
    }
}

// Puts the guests in order, where there is one place for each.
fn put_in_order(owed: &[i64], by: &mut [u8])
    requires few { length owed.now ≤ 64 }
    requires long { length by.old ≡ length owed.now }
    ensures ranks { ranks_all owed.now by.new ≡ true }
    ensures shuffled { IsPermutation (range_with_len 0 (length owed.now)) by.new }
{
    write_guests(by);
    by.sort_unstable_by_key(|guest| rank(owed, *guest));
}

// Puts all guests into `by` in the order of what they are owed, the most first, of equals the lowest. A list that has
// not one place for each guest is left as it was, and so is every list where there are more than 64.
pub fn order_by_owed(owed: &[i64], by: &mut [u8]) -> Result<(), OrderFault>
    ensures { Ordered owed.now by.old by.new result }
{
    if owed.len() > Plan::MAX_GUESTS {
        return Err(OrderFault::TooManyGuests);
    }
    if by.len() != owed.len() {
        return Err(OrderFault::OtherLength);
    }
    put_in_order(owed, by);
    Ok(())
}

#[cfg(test)]
mod tests {
    use super::*;

    #[test]
    fn the_part_of_a_list_in_order(rt: HostRuntime) {
        let owed = [-2, -1, 3];
        assert_eq!(rt; who_is_owed(&owed, &[2, 1, 0]), &[2][..]);
        assert_eq!(rt; who_is_owed(&owed, &[1, 2, 0]), &[][..]);
    }

    #[test]
    fn of_equals_the_lowest_comes_first(rt: HostRuntime) {
        let owed = [0, 5, -5, 0];
        let mut by = [0; 4];
        assert_eq!(rt; order_by_owed(&owed, &mut by), Ok(()));
        assert_eq!(rt; by, [1, 0, 3, 2]);
        assert_eq!(rt; who_is_owed(&owed, &by), &[1][..]);
    }

    #[test]
    fn a_list_of_another_length_is_left_as_it_was(rt: HostRuntime) {
        let mut by = [7, 7];
        assert_eq!(rt;
            order_by_owed(&[1, 0, -1], &mut by),
            Err(OrderFault::OtherLength)
        );
        assert_eq!(rt; by, [7, 7]);
    }
}
