// Retiring, the cells that stay, and the store that is given back.
use super::bench::{ADDING, AROUND, UPPER_SPOILED, executive, interrupted, over, terms};
use processor::RelativeAddress;
use std::test::Fail;
use store::CellAddress;

// All that was loaded and put is in it, with the marks of what was not.
#[test]
fn the_store_is_given_back(rt: HostRuntime) -> Result<(), Fail> {
    let mut memory = [AROUND; 12];
    memory[2..10].copy_from_slice(&ADDING);
    memory[8] = UPPER_SPOILED + 1;
    let mut installation = over(rt.alloc(), &memory)?;
    assert_eq!(rt; installation.admit(3, CellAddress(2), terms(9, 0)), Ok(()));
    assert_eq!(rt;
        installation.load(3, RelativeAddress(8), 0o1234567012),
        Ok(())
    );
    assert_eq!(rt; installation.run(3, 100), Ok(interrupted(4, executive(10))));
    memory[9] = 8;
    memory[10] = 0o1234567012;
    assert_eq!(rt;
        installation.into_store().into_memory().as_slice(),
        memory.as_slice()
    );
    Ok(())
}
