// Transfers between registers and words.
ghost use Rattle.std.specs.Prelude.{◌≡◌};
ghost use Rattle.processor.specs.Limits.{machine_in};
ghost use Rattle.processor.specs.Results.{effect, effected};
ghost use Rattle.processor.specs.Transfers.{enter_a, enter_aq, enter_b, enter_q, pack_lower, registers_by, store_a, store_aq, store_b, store_product, store_q};

use super::Report;
use super::effect::{Next, Pending, Puts};
use super::fields::Instruction;
use super::references::Words;
use records::Registers;
use store::Store;
use words::{Word, half_bits, packed};

// Y to Q.
pub(crate) fn enter_q<S: Store>(
    words: &Words<'_, S>,
    registers: &mut Registers,
    i: &Instruction,
) -> Result<Pending, Report>
    ensures { effected registers.new result ≡ enter_q (machine_in (S.cells words.now.store.now) words.now.limits registers.old) i.now }
{
    let y = words.operand(registers, i)?;
    registers.set_q(y);
    Ok(Pending::skipping(i.j(), registers))
}

// Y to A.
pub(crate) fn enter_a<S: Store>(
    words: &Words<'_, S>,
    registers: &mut Registers,
    i: &Instruction,
) -> Result<Pending, Report>
    ensures { effected registers.new result ≡ enter_a (machine_in (S.cells words.now.store.now) words.now.limits registers.old) i.now }
{
    let y = words.operand(registers, i)?;
    registers.set_a(y);
    Ok(Pending::skipping(i.j(), registers))
}

// The lowest 15 bits of Y to Bj; with j = 0 it does nothing and refers to nothing.
pub(crate) fn enter_b<S: Store>(
    words: &Words<'_, S>,
    registers: &mut Registers,
    i: &Instruction,
) -> Result<Pending, Report>
    ensures { effected registers.new result ≡ enter_b (machine_in (S.cells words.now.store.now) words.now.limits registers.old) i.now }
{
    if i.j() != 0 {
        let y = words.operand(registers, i)?;
        registers.set_b(i.j().into(), y.get());
    }
    Ok(Pending::only(Next::Onward))
}

// Q, or its complement; k = 0 complements Q in place, and 4 puts Q in A.
#[inline(always)]
pub(crate) fn store_q(registers: &mut Registers, i: &Instruction) -> Pending
    ensures { effect registers.new result ≡ store_q registers.old i.now }
{
    let at = i.effective(registers);
    let q = registers.q();
    let complement = q.complement();
    match i.k() {
        0 => registers.set_q(complement),
        4 => registers.set_a(q),
        _ => {}
    }
    Pending::with_skip(Puts::stored(i.k(), at, q, complement), i.j(), registers)
}

// A, or its complement; k = 0 puts A in Q, and 4 complements A in place.
#[inline(always)]
pub(crate) fn store_a(registers: &mut Registers, i: &Instruction) -> Pending
    ensures { effect registers.new result ≡ store_a registers.old i.now }
{
    let at = i.effective(registers);
    let a = registers.a();
    let complement = a.complement();
    match i.k() {
        0 => registers.set_q(a),
        4 => registers.set_a(complement),
        _ => {}
    }
    Pending::with_skip(Puts::stored(i.k(), at, a, complement), i.j(), registers)
}

// A word in a register by k: with k = 0 in Q, and with 4 in A.
fn set_by(k: u8, registers: &mut Registers, word: Word)
    ensures { registers.new ≡ registers_by k registers.old (record registers.old { q = word }) (record registers.old { a = word }) }
{
    match k {
        0 => registers.set_q(word),
        4 => registers.set_a(word),
        _ => {}
    }
}

// Bj with zeros above, or its complement with bit 14 copied upwards; k = 0 puts Bj in Q, and 4 in A. It never skips.
#[inline(always)]
pub(crate) fn store_b(registers: &mut Registers, i: &Instruction) -> Pending
    ensures { effect registers.new result ≡ store_b registers.old i.now }
{
    let at = i.effective(registers);
    let b = half_bits(registers.b(i.j().into()));
    let word = b.with_zeros();
    set_by(i.k(), registers, word);
    Pending {
        puts: Puts::stored(i.k(), at, word, b.complement().extended()),
        next: Next::Onward,
    }
}

// The logical product of A and Q, or its complement; k = 0 puts it in Q, and 4 in A.
#[inline(always)]
pub(crate) fn store_product(registers: &mut Registers, i: &Instruction) -> Pending
    ensures { effect registers.new result ≡ store_product registers.old i.now }
{
    let at = i.effective(registers);
    let product = registers.a().product(registers.q());
    set_by(i.k(), registers, product);
    Pending::with_skip(
        Puts::stored(i.k(), at, product, product.complement()),
        i.j(),
        registers,
    )
}

// Two words to A and Q.
pub(crate) fn enter_aq<S: Store>(
    words: &Words<'_, S>,
    registers: &mut Registers,
    i: &Instruction,
) -> Result<Pending, Report>
    ensures { effected registers.new result ≡ enter_aq (machine_in (S.cells words.now.store.now) words.now.limits registers.old) i.now }
{
    let first = i.effective(registers);
    let second = i.further(registers, 1);
    registers.set_a(words.read(first)?);
    registers.set_q(words.read(second)?);
    Ok(Pending::only(Next::Onward))
}

// A and Q to two words.
pub(crate) fn store_aq(registers: &Registers, i: &Instruction) -> Pending
    ensures { effect registers.now result ≡ store_aq registers.now i.now }
{
    let a = (i.effective(registers), registers.a());
    let q = (i.further(registers, 1), registers.q());
    Pending {
        puts: Puts::TwoWords(a, q),
        next: Next::Onward,
    }
}

// The lowest characters of five words side by side to A.
pub(crate) fn pack_lower<S: Store>(
    words: &Words<'_, S>,
    registers: &mut Registers,
    i: &Instruction,
) -> Result<Pending, Report>
    ensures { effected registers.new result ≡ pack_lower (machine_in (S.cells words.now.store.now) words.now.limits registers.old) i.now }
{
    let packed = packed([
        words.read(i.effective(registers))?,
        words.read(i.further(registers, 1))?,
        words.read(i.further(registers, 2))?,
        words.read(i.further(registers, 3))?,
        words.read(i.further(registers, 4))?,
    ]);
    registers.set_a(packed);
    Ok(Pending::only(Next::Onward))
}
