// Decoding: a word into its fields, and these into an operation.
ghost use Rattle.std.specs.Prelude.{◌≡◌, ◌+◌, ◌*◌, Some};
ghost use Rattle.processor.specs.Repertoire.{allows, allows_computing, coded, if_allowed, operation_of, with_code, instructions, instructions_77};

use super::fields::Instruction;
use super::{Computation, Operation, Shifted};

impl Computation {
    // Three do not allow a k of 7.
    #[inline(always)]
    fn allows(self, k: u8) -> bool
        ensures { result ≡ allows_computing self k }
    {
        match self {
            Computation::SelectiveSet
            | Computation::SelectiveClear
            | Computation::SelectiveSubstitute => k != 7,
            _ => true,
        }
    }
}

impl Operation {
    // Does it allow this k?
    #[inline(always)]
    fn allows(self, k: u8) -> bool
        ensures { result ≡ allows self k }
    {
        match self {
            Operation::Replace(_) => k != 0 && k != 4 && k != 7,
            Operation::Compute(computation) => computation.allows(k),
            Operation::StoreProduct => k != 7,
            _ => true,
        }
    }

    #[inline(always)]
    fn if_allowed(self, k: u8) -> Option<Operation>
        ensures { result ≡ if_allowed k (Some self) }
    {
        if self.allows(k) { Some(self) } else { None }
    }
}

// The operation of a code, where f is not 77.
#[inline(always)]
fn with_f(f: u8) -> Option<Operation>
    ensures { result ≡ with_code f instructions }
{
    Some(match f {
        0o01 => Operation::ShiftRight(Shifted::Q),
        0o02 => Operation::ShiftRight(Shifted::A),
        0o03 => Operation::ShiftRight(Shifted::Aq),
        0o05 => Operation::ShiftLeft(Shifted::Q),
        0o06 => Operation::ShiftLeft(Shifted::A),
        0o07 => Operation::ShiftLeft(Shifted::Aq),
        0o10 => Operation::EnterQ,
        0o11 => Operation::EnterA,
        0o12 => Operation::EnterB,
        0o14 => Operation::StoreQ,
        0o15 => Operation::StoreA,
        0o16 => Operation::StoreB,
        0o20 => Operation::Compute(Computation::Sum),
        0o21 => Operation::Compute(Computation::Difference),
        0o24 => Operation::Replace(Computation::Sum),
        0o25 => Operation::Replace(Computation::Difference),
        0o36 => Operation::Replace(Computation::Increment),
        0o37 => Operation::Replace(Computation::Decrement),
        0o40 => Operation::Compute(Computation::Product),
        0o41 => Operation::Compute(Computation::SumWithProduct),
        0o42 => Operation::Compute(Computation::DifferenceWithProduct),
        0o43 => Operation::CompareMasked,
        0o44 => Operation::Replace(Computation::Product),
        0o45 => Operation::Replace(Computation::SumWithProduct),
        0o46 => Operation::Replace(Computation::DifferenceWithProduct),
        0o47 => Operation::StoreProduct,
        0o50 => Operation::Compute(Computation::SelectiveSet),
        0o51 => Operation::Compute(Computation::SelectiveComplement),
        0o52 => Operation::Compute(Computation::SelectiveClear),
        0o53 => Operation::Compute(Computation::SelectiveSubstitute),
        0o54 => Operation::Replace(Computation::SelectiveSet),
        0o55 => Operation::Replace(Computation::SelectiveComplement),
        0o56 => Operation::Replace(Computation::SelectiveClear),
        0o57 => Operation::Replace(Computation::SelectiveSubstitute),
        0o60 => Operation::Jump,
        0o64 => Operation::ReturnJump,
        0o71 => Operation::SkipOnB,
        0o72 => Operation::JumpOnB,
        _ => return None,
    })
}

// The operation of a g, where f is 77.
fn with_g(g: u32) -> Option<Operation>
    ensures { result ≡ with_code g instructions_77 }
{
    Some(match g {
        0o21 => Operation::EnterAq,
        0o23 => Operation::CompareAqEqual,
        0o25 => Operation::StoreAq,
        0o27 => Operation::CompareAqLess,
        0o30 => Operation::ScaleFactor,
        0o31 => Operation::PackLower,
        0o51 => Operation::ShiftRightLogical(Shifted::Q),
        0o52 => Operation::TestAndSet,
        0o53 => Operation::MaskedEqual,
        0o54 => Operation::ExecutiveReturn,
        0o55 => Operation::ShiftRightLogical(Shifted::A),
        0o56 => Operation::ShiftRightLogical(Shifted::Aq),
        0o57 => Operation::MaskedLess,
        _ => return None,
    })
}

// j and k as one code.
fn g(j: u8, k: u8) -> u32
    ensures { result ≡ j * 8 + k }
{
    u32::from(j) * 8 + u32::from(k)
}

impl Instruction {
    #[inline(always)]
    fn coded(&self) -> Option<Operation>
        ensures { result ≡ coded self.now }
    {
        match self.f() {
            0o77 => with_g(g(self.j(), self.k())),
            f => with_f(f),
        }
    }

    // The operation, if the instruction is legal.
    #[tactic(auto, unfolding(crate::specs::Repertoire::operation_of))]
    #[inline(always)]
    pub(crate) fn operation(&self) -> Option<Operation>
        ensures { result ≡ operation_of self.now }
    {
        self.coded()?.if_allowed(self.k())
    }
}
