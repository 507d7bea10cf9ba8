// One instruction: which operation does what.
ghost use Rattle.std.specs.Prelude.{◌≡◌};
ghost use Rattle.processor.specs.Limits.{machine_in};
ghost use Rattle.processor.specs.Results.{effected};
ghost use Rattle.processor.specs.Step.{effect_of, instruction_effect};

use super::comparisons::{
    compare_aq_equal, compare_aq_less, compare_masked, masked_equal, masked_less,
};
use super::computations::{compute, replace};
use super::effect::Pending;
use super::executive::{executive_return, test_and_set};
use super::fields::Instruction;
use super::jumps::{jump, jump_on_b, return_jump, skip_on_b};
use super::references::Words;
use super::shifts::{Shift, scale, shift_by_operand, shift_right_logical};
use super::transfers::{
    enter_a, enter_aq, enter_b, enter_q, pack_lower, store_a, store_aq, store_b, store_product,
    store_q,
};
use super::{Operation, RelativeAddress, Report};
use records::Registers;
use store::Store;

// What an operation comes to. It reads, and changes the registers; what it puts is still to be tried and done.
fn effect_of<S: Store>(
    operation: Operation,
    words: &Words<'_, S>,
    registers: &mut Registers,
    i: &Instruction,
) -> Result<Pending, Report>
    ensures { effected registers.new result ≡ effect_of operation (machine_in (S.cells words.now.store.now) words.now.limits registers.old) i.now }
{
    match operation {
        Operation::ShiftRight(which) => {
            shift_by_operand(Shift::RightWithSign, which, words, registers, i)
        }
        Operation::ShiftLeft(which) => {
            shift_by_operand(Shift::LeftAround, which, words, registers, i)
        }
        Operation::ShiftRightLogical(which) => shift_right_logical(which, registers, i),
        Operation::ScaleFactor => Ok(scale(registers)),
        Operation::EnterQ => enter_q(words, registers, i),
        Operation::EnterA => enter_a(words, registers, i),
        Operation::EnterB => enter_b(words, registers, i),
        Operation::EnterAq => enter_aq(words, registers, i),
        Operation::StoreQ => Ok(store_q(registers, i)),
        Operation::StoreA => Ok(store_a(registers, i)),
        Operation::StoreB => Ok(store_b(registers, i)),
        Operation::StoreAq => Ok(store_aq(registers, i)),
        Operation::StoreProduct => Ok(store_product(registers, i)),
        Operation::PackLower => pack_lower(words, registers, i),
        Operation::Compute(computation) => compute(computation, words, registers, i),
        Operation::Replace(computation) => replace(computation, words, registers, i),
        Operation::CompareMasked => compare_masked(words, registers, i),
        Operation::CompareAqEqual => compare_aq_equal(words, registers, i),
        Operation::CompareAqLess => compare_aq_less(words, registers, i),
        Operation::MaskedEqual => masked_equal(words, registers, i),
        Operation::MaskedLess => masked_less(words, registers, i),
        Operation::Jump => jump(words, registers, i),
        Operation::ReturnJump => return_jump(words, registers, i),
        Operation::SkipOnB => skip_on_b(words, registers, i),
        Operation::JumpOnB => jump_on_b(words, registers, i),
        Operation::ExecutiveReturn => Err(executive_return(registers, i)),
        Operation::TestAndSet => test_and_set(words, registers, i),
    }
}

// What a legal instruction comes to; any other is illegal.
#[tactic(auto, unfolding(crate::specs::Step::instruction_effect))]
pub(crate) fn instruction_effect<S: Store>(
    words: &Words<'_, S>,
    registers: &mut Registers,
    i: &Instruction,
) -> Result<Pending, Report>
    ensures { effected registers.new result ≡ instruction_effect (machine_in (S.cells words.now.store.now) words.now.limits registers.old) i.now }
{
    match i.operation() {
        Some(operation) => effect_of(operation, words, registers, i),
        None => Err(Report::IllegalInstruction(RelativeAddress(registers.p()))),
    }
}
