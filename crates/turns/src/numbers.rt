// Numbers as words write them.
ghost use Rattle.std.specs.Prelude.{◌≡◌, ℕ, ◌-◌, ◌^◌, List, MatchBool, Some, None, Option, Result};
ghost use Rattle.std.specs.Result.{result_unwrap_or};
ghost use Rattle.std.specs.Str.{all_ascii_digits};
ghost use Rattle.turns.specs.Numerals.{plain, signed, up_to};

use std::str::{self, FromStr};

// A number that is too large for its type is read as the largest, which every check refuses.
pub trait Number {
    ghost reads: { List ℕ → Option Self → Type 0 };

    fn read(word: &[u8]) -> Option<Self>
        ensures { reads word.now result };
}

impl Number for u8 {
    ghost reads = { λ word r. r ≡ up_to (2 ^ 8 - 1) word };

    #[tactic(auto, using(crate::proofs::Digits::up_to_parsed))]
    fn read(word: &[u8]) -> Option<u8> {
        up_to(word, u8::MAX)
    }
}

impl Number for u32 {
    ghost reads = { λ word r. r ≡ up_to (2 ^ 32 - 1) word };

    #[tactic(auto, using(crate::proofs::Digits::up_to_parsed))]
    fn read(word: &[u8]) -> Option<u32> {
        up_to(word, u32::MAX)
    }
}

impl Number for u64 {
    ghost reads = { λ word r. r ≡ up_to (2 ^ 64 - 1) word };

    #[tactic(auto, using(crate::proofs::Digits::up_to_parsed))]
    fn read(word: &[u8]) -> Option<u64> {
        up_to(word, u64::MAX)
    }
}

impl Number for i64 {
    ghost reads = { λ word r. r ≡ signed word };

    fn read(word: &[u8]) -> Option<i64> {
        match word {
            [b'-', b'0', ..] => None,
            [b'-', size @ ..] => {
                let size = <u64 as Number>::read(size)?;
                Some(0_i64.saturating_sub_unsigned(size))
            }
            _ => {
                let size = <u64 as Number>::read(word)?;
                Some(0_i64.saturating_add_unsigned(size))
            }
        }
    }
}

// The number that a word writes, or `top` where that is too large for its type.
fn up_to<N: FromStr + Drop>(word: &[u8], top: N) -> Option<N>
where
    N::Err: Drop,
    ensures { MatchBool (plain word.now) ((r : Result N N.Err) × N.from_str_gives word.now r × (result ≡ Some (result_unwrap_or r top))) (result ≡ None) }
{
    if !is_plain(word) {
        return None;
    }
    // Digits are text: to test that too takes as long as reading them.
    let digits = unsafe { str::from_utf8_unchecked(word) };
    Some(digits.parse().unwrap_or(top))
}

// Digits alone, and no 0 before another.
fn is_plain(word: &[u8]) -> bool
    ensures { result ≡ plain word.now }
{
    match word {
        [] => false,
        [b'0', _, ..] => false,
        _ => all_digits(word),
    }
}

fn all_digits(word: &[u8]) -> bool
    ensures { result ≡ all_ascii_digits word.now }
{
    word.iter().all(|b| b.is_ascii_digit())
}
