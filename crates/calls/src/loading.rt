// Load and look: refusals 8, 9 and 19.
use super::bench::{scene, unchanged};
use engine::Refusal;
use processor::RelativeAddress;
use std::test::Fail;
use store::Half::{Lower, Upper};

// It is not taken by its lower bits. A spoiled cell is not told of.
#[test]
fn a_spoiled_half_is_told(rt: HostRuntime) -> Result<(), Fail> {
    let scene = scene(&rt)?;
    assert_eq!(rt;
        scene.look(6, RelativeAddress(1)),
        Err(Refusal::Spoiled(Upper))
    );
    assert_eq!(rt;
        scene.look(6, RelativeAddress(2)),
        Err(Refusal::Spoiled(Lower))
    );
    assert_eq!(rt;
        scene.look(6, RelativeAddress(3)),
        Err(Refusal::Spoiled(Upper))
    );
    unchanged(&rt, scene)
}

// Loads at two workers' own addresses reach two cells.
// The highest address of a store's last cell.
