// Places: refusals 1, 2 and 3.
use super::bench::{scene, span, terms, unchanged};
use engine::Refusal;
use processor::RelativeAddress;
use std::test::Fail;
use store::CellAddress;

// Whatever else is wrong.
#[test]
fn no_place_is_above_7(rt: HostRuntime) -> Result<(), Fail> {
    for place in [8, 9, 255, 256, 65_536, 2_147_483_649, 4_294_967_295] {
        let mut scene = scene(&rt)?;
        let no = Refusal::NoSuchPlace;
        assert_eq!(rt;
            scene.admit(place, CellAddress(4_294_967_295), terms(0, 5)),
            Err(no),
            "at {place}"
        );
        assert_eq!(rt;
            scene.admit(place, CellAddress(21), terms(1, 0)),
            Err(no),
            "at {place}"
        );
        assert_eq!(rt;
            scene.load(place, RelativeAddress(99), 1 << 30),
            Err(no),
            "at {place}"
        );
        assert_eq!(rt;
            scene.look(place, RelativeAddress(99)),
            Err(no),
            "at {place}"
        );
        assert_eq!(rt; scene.run(place, 1_000_001), Err(no), "at {place}");
        assert_eq!(rt; scene.answer(place, 1 << 30, 0, 0), Err(no), "at {place}");
        let mut buffer = [0xaa; 28];
        assert_eq!(rt; scene.save(place, &mut buffer), Err(no), "at {place}");
        assert_eq!(rt; buffer, [0xaa; 28]);
        assert_eq!(rt; scene.restore(place, &[]), Err(no), "at {place}");
        assert_eq!(rt; scene.tell(place), Err(no), "at {place}");
        assert_eq!(rt; scene.retire(place), Err(no), "at {place}");
        assert_eq!(rt; scene.span(place), Err(no), "at {place}");
        unchanged(&rt, scene)?;
    }
    Ok(())
}

// Tell, look and span change nothing on a ready worker or on a held one.
