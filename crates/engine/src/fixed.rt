// The fixed addresses to which interrupts go.
ghost use Rattle.std.specs.Prelude.{◌≡◌};
ghost use Rattle.engine.specs.FixedAddress.{cause_numbered, fixed, fixed_address};
ghost use Rattle.engine.specs.Laws.{CausesAreNumbered};

use super::Refusal;
use processor::Cause;
use store::{CellAddress, MOST_CELLS};

fn cause_numbered(number: u32) -> Result<Cause, Refusal>
    ensures { result ≡ cause_numbered number }
{
    match number {
        1 => Ok(Cause::IllegalInstruction),
        2 => Ok(Cause::Protection),
        3 => Ok(Cause::Parity),
        4 => Ok(Cause::ExecutiveReturn),
        5 => Ok(Cause::TestAndSet),
        _ => Err(Refusal::NoFixedAddress),
    }
}

// That of a cause; parity has one for each of four parts of 32,768 cells.
fn of_cause(cause: Cause, cell: u32) -> u32
    ensures { result ≡ fixed cause cell }
{
    match cause {
        Cause::IllegalInstruction => 0o0,
        Cause::Protection => 0o1,
        Cause::Parity => match cell / 32_768 {
            0 => 0o3,
            1 => 0o4,
            2 => 0o23,
            _ => 0o27,
        },
        Cause::ExecutiveReturn => 0o7,
        Cause::TestAndSet => 0o30,
    }
}

// Where the cause with a number goes, for a cell of a store. It concerns no installation.
#[tactic(auto, using(crate::proofs::Numbered::causes_are_numbered), unfolding(crate::specs::FixedAddress::fixed_address))]
pub fn fixed_address(cause: u32, address: CellAddress) -> Result<CellAddress, Refusal>
    ensures value { result ≡ fixed_address cause address.0 }
    ensures numbered { CausesAreNumbered }
{
    let cause = cause_numbered(cause)?;
    if address.0 >= MOST_CELLS {
        return Err(Refusal::NoFixedAddress);
    }
    Ok(CellAddress(of_cause(cause, address.0)))
}
