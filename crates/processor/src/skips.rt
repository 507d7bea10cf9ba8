// Skips by j, which are tested on the registers as the instruction leaves them.
ghost use Rattle.std.specs.Prelude.{◌≡◌};
ghost use Rattle.processor.specs.Skips.{computed_skip_met, is_negative, product_skip_met, skip_met};

use super::Computation;
use words::Word;

fn is_negative(word: Word) -> bool
    ensures { result ≡ is_negative word }
{
    word.get() >> 29 == 1
}

// Never; always; Q's sign is 0, is 1; A is all zeros, is not; A's sign is 0, is 1.
#[tactic(auto, unfolding(crate::specs::Skips::skip_met))]
#[inline(always)]
pub(crate) fn skip_met(j: u8, a: Word, q: Word) -> bool
    ensures { result ≡ skip_met j a q }
{
    match j {
        0 => false,
        1 => true,
        2 => !is_negative(q),
        3 => is_negative(q),
        4 => a.get() == 0,
        5 => a.get() != 0,
        6 => !is_negative(a),
        _ => is_negative(a),
    }
}

// After a logical product that is put in A, 2 and 3 test whether A has an even, an odd number of ones.
#[tactic(auto, unfolding(crate::specs::Skips::product_skip_met))]
fn product_skip_met(j: u8, a: Word, q: Word) -> bool
    ensures { result ≡ product_skip_met j a q }
{
    match j {
        2 => !a.has_odd_ones(),
        3 => a.has_odd_ones(),
        _ => skip_met(j, a, q),
    }
}

impl Computation {
    #[inline(always)]
    pub(crate) fn skip_met(self, j: u8, a: Word, q: Word) -> bool
        ensures { result ≡ computed_skip_met self j a q }
    {
        match self {
            Computation::Product => product_skip_met(j, a, q),
            _ => skip_met(j, a, q),
        }
    }
}
