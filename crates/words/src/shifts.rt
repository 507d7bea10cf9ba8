// Shifts and turns of a word and of two words, each written once for a number of N bits. A count of N or more shifts every bit out, and turns by what
// whole turns leave of it.
ghost use Rattle.std.specs.Prelude.{◌≡◌, ℕ, ◌+◌, ◌/◌, ◌%◌, ◌^◌, ◌<◌, ◌≤◌, pos, int_div};
ghost use Rattle.words.specs.Double.{over, upper_word, lower_word};
ghost use Rattle.words.specs.Sums.{integer_of};
ghost use Rattle.words.specs.Shifts.{shifted_right, shifted_right_with_sign, turned_left};

use super::numbers::{lowest, ones};
use super::{DoubleWord, Word};

// A number of 64 bits cannot be shifted by more than 63, which leaves no bit of N.
#[tactic(auto, using(crate::proofs::Shifted::quotient_capped, crate::proofs::Shifted::shifted_right_is))]
fn shifted_right<const N: u32>(x: u64, count: u32) -> u64
    requires number { x < 2 ^ N }
    requires width { N ≤ 60 }
    ensures value { result ≡ shifted_right N x count }
    ensures quotient { result ≡ x / 2 ^ count }
    ensures small { result < 2 ^ N }
{
    x >> count.min(63)
}

// Where the sign is 1, every bit is turned over before and after, so that zeros come in for ones.
#[tactic(auto, using(crate::proofs::Shifted::shifted_positive, crate::proofs::Shifted::shifted_negative, crate::proofs::Shifted::shifted_integer))]
fn shifted_right_with_sign<const N: u32>(x: u64, count: u32) -> u64
    requires number { x < 2 ^ N }
    requires width { (0 < N) × (N ≤ 60) }
    ensures value { result ≡ shifted_right_with_sign N x count }
    ensures integer { integer_of N result ≡ int_div (integer_of N x) (pos (2 ^ count)) }
    ensures small { result < 2 ^ N }
{
    if x >> (N - 1) == 0 {
        shifted_right::<N>(x, count)
    } else {
        ones::<N>() - shifted_right::<N>(ones::<N>() - x, count)
    }
}

#[tactic(auto, using(crate::proofs::Shifted::turned_is, crate::proofs::Shifted::turned_remainder, crate::proofs::Shifted::no_turn, crate::proofs::Shifted::one_more_turn))]
fn turned_left<const N: u32>(x: u64, count: u32) -> u64
    requires number { x < 2 ^ N }
    requires width { (0 < N) × (N ≤ 60) }
    ensures value { result ≡ turned_left N x count }
    ensures none { count ≡ 0 → result ≡ x }
    ensures remainder { result ≡ turned_left N x (count % N) }
    ensures again { (d : ℕ) → turned_left N result d ≡ turned_left N x (count + d) }
    ensures small { result < 2 ^ N }
{
    let up = count % N;
    lowest::<N>((x << up) | (x >> (N - up)))
}

impl Word {
    // To the right, with zeros coming in.
    pub fn shifted_right(self, count: u32) -> Word
        ensures value { result ≡ shifted_right 30 self count }
        ensures quotient { result ≡ self / 2 ^ count }
    {
        Word::new(shifted_right::<30>(self.get().into(), count) as u32)
    }

    // To the right, with copies of the sign coming in.
    pub fn shifted_right_with_sign(self, count: u32) -> Word
        ensures value { result ≡ shifted_right_with_sign 30 self count }
        ensures integer { integer_of 30 result ≡ int_div (integer_of 30 self) (pos (2 ^ count)) }
    {
        Word::new(shifted_right_with_sign::<30>(self.get().into(), count) as u32)
    }

    // To the left, and what leaves at the top comes in at the bottom.
    pub fn turned_left(self, count: u32) -> Word
        ensures value { result ≡ turned_left 30 self count }
        ensures none { count ≡ 0 → result ≡ self }
        ensures remainder { result ≡ turned_left 30 self (count % 30) }
        ensures again { (d : ℕ) → turned_left 30 result d ≡ turned_left 30 self (count + d) }
    {
        Word::new(turned_left::<30>(self.get().into(), count) as u32)
    }
}

// The same of 60 bits.
impl DoubleWord {
    pub fn shifted_right(self, count: u32) -> DoubleWord
        ensures value { result ≡ shifted_right 60 self count }
        ensures quotient { result ≡ self / 2 ^ count }
    {
        DoubleWord::new(shifted_right::<60>(self.get(), count))
    }

    pub fn shifted_right_with_sign(self, count: u32) -> DoubleWord
        ensures value { result ≡ shifted_right_with_sign 60 self count }
        ensures integer { integer_of 60 result ≡ int_div (integer_of 60 self) (pos (2 ^ count)) }
    {
        DoubleWord::new(shifted_right_with_sign::<60>(self.get(), count))
    }

    // By 30 it exchanges the two words.
    #[tactic(auto, using(crate::proofs::Shifted::turned_half))]
    pub fn turned_left(self, count: u32) -> DoubleWord
        ensures value { result ≡ turned_left 60 self count }
        ensures none { count ≡ 0 → result ≡ self }
        ensures remainder { result ≡ turned_left 60 self (count % 60) }
        ensures again { (d : ℕ) → turned_left 60 result d ≡ turned_left 60 self (count + d) }
        ensures exchanged { count ≡ 30 → result ≡ over (lower_word self) (upper_word self) }
    {
        DoubleWord::new(turned_left::<60>(self.get(), count))
    }
}
