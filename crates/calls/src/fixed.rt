// Fixed addresses, and refusal 14.
use engine::fixed_address;
use std::test::Fail;
use store::CellAddress;

#[test]
fn each_cause_has_its_address(rt: HostRuntime) -> Result<(), Fail> {
    for (cause, cell, address) in [
        (1, 0, 0o0),
        (1, 131_071, 0o0),
        (2, 0, 0o1),
        (2, 65_536, 0o1),
        (3, 0, 0o3),
        (3, 32_767, 0o3),
        (3, 32_768, 0o4),
        (3, 65_535, 0o4),
        (3, 65_536, 0o23),
        (3, 98_303, 0o23),
        (3, 98_304, 0o27),
        (3, 131_071, 0o27),
        (4, 0, 0o7),
        (4, 98_304, 0o7),
        (5, 0, 0o30),
        (5, 131_071, 0o30),
    ] {
        let found = fixed_address(cause, CellAddress(cell));
        assert_eq!(rt; found, Ok(CellAddress(address)), "{cause} at {cell}");
    }
    Ok(())
}
