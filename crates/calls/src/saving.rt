// Save and restore: refusals 13 and 15 to 18, and the register record.
use super::bench::{
    MEMORY, RECORD, ends, over, recorded, scene, seen_first, terms, told, unchanged,
};
use engine::{Refusal, State, Told};
use std::test::Fail;
use store::CellAddress;

// The record with another byte at an offset.
fn changed(at: usize, byte: u8) -> [u8; 29] {
    let mut bytes = RECORD;
    if let Some(place) = bytes.get_mut(at) {
        *place = byte;
    }
    bytes
}

// A new worker with entry 5.
#[test]
fn bytes_after_a_record_stay(rt: HostRuntime) -> Result<(), Fail> {
    let mut installation = over(rt.alloc(), &[0; 8])?;
    assert_eq!(rt; installation.admit(0, CellAddress(0), terms(8, 5)), Ok(()));
    let mut buffer = [0xaa; 33];
    assert_eq!(rt; installation.save(0, &mut buffer), Ok(()));
    assert_eq!(rt;
        buffer,
        [
            0x00, 0x1b, 0x01, 0x00, 0x00, 0x00, 0x00, 0x00, 0x00, 0x00, 0x00, 0x00, 0x00, 0x00,
            0x00, 0x00, 0x00, 0x00, 0x00, 0x00, 0x00, 0x00, 0x00, 0x00, 0x00, 0x00, 0x00, 0x00,
            0x05, 0xaa, 0xaa, 0xaa, 0xaa
        ]
    );
    assert_eq!(rt; installation.tell(0), Ok(told(State::Ready, 0, 0, 5)));
    Ok(())
}

// Each is tried before the version and the fields.
// From P on downwards each field is made too wide, and the last made is the first in the record.
#[test]
fn the_first_wide_field_is_told(rt: HostRuntime) -> Result<(), Fail> {
    let mut bytes = changed(26, 0x02);
    for at in [23, 21, 19, 17, 15, 13, 11, 7, 3] {
        if let Some(place) = bytes.get_mut(at as usize) {
            *place = 0xff;
        }
        let mut scene = scene(&rt)?;
        assert_eq!(rt;
            scene.restore(6, &bytes),
            Err(Refusal::FieldTooWide(at)),
            "{at}"
        );
        unchanged(&rt, scene)?;
    }
    Ok(())
}

// Nothing of what follows the 29 bytes counts. All registers change, and its words stay.
#[test]
fn a_held_worker_is_ready_when_restored(rt: HostRuntime) -> Result<(), Fail> {
    let mut longer = [0xff; 40];
    longer[..29].copy_from_slice(&changed(28, 0x03));
    let mut scene = scene(&rt)?;
    assert_eq!(rt; scene.restore(6, &longer), Ok(()));
    let mut seen = seen_first();
    seen.told[6] = Ok(Told {
        state: State::Ready,
        registers: recorded(3),
    });
    ends(&rt, scene, seen, &MEMORY)
}

// A record is a worker's no more than another's: the held worker's makes the other go on at 1, from A = 0.
// P is not tried against the length.
